// What the product claims, in one contract: the crate is proved only while each claim has its proof.
#![tactic(auto)]

ghost use Rattle.claims.specs.Arithmetic.{Arithmetic};
ghost use Rattle.claims.specs.CosineKinds.{CosineKinds};
ghost use Rattle.claims.specs.Demands.{Demands};
ghost use Rattle.claims.specs.Edges.{Edges};
ghost use Rattle.claims.specs.Examples.{Examples};
ghost use Rattle.claims.specs.Exchange.{Exchange};
ghost use Rattle.claims.specs.Halves.{Halves};
ghost use Rattle.claims.specs.HouseSine.{HouseSine};
ghost use Rattle.claims.specs.Interface.{Interface};
ghost use Rattle.claims.specs.Names.{Names};
ghost use Rattle.claims.specs.Notes.{Notes};
ghost use Rattle.claims.specs.Printing.{Printing};
ghost use Rattle.claims.specs.RecordExample.{RecordExample};
ghost use Rattle.claims.specs.ReprojectedRuns.{ReprojectedRuns};
ghost use Rattle.claims.specs.Reprojection.{Reprojection};
ghost use Rattle.claims.specs.ReprojectionExamples.{ReprojectionExamples};
ghost use Rattle.claims.specs.SalvageExamples.{SalvageExamples};
ghost use Rattle.claims.specs.Salvages.{Salvages};
ghost use Rattle.claims.specs.SalvagedRuns.{SalvagedRuns};
ghost use Rattle.claims.specs.Sharp.{Sharp};
ghost use Rattle.claims.specs.TextExamples.{TextExamples};
ghost use Rattle.claims.specs.Texts.{Texts};
ghost use Rattle.claims.specs.TurnedPlaces.{TurnedPlaces};
ghost use Rattle.claims.specs.Written.{Written};

// Does nothing. Its `ensures` is the product of all claims.
pub fn hold()
    ensures { Demands × Edges × TurnedPlaces × Sharp × Examples × RecordExample × Arithmetic × Halves × HouseSine × CosineKinds × Written × Printing × Interface × Texts × TextExamples × Notes × Salvages × SalvageExamples × Exchange × Reprojection × ReprojectionExamples × ReprojectedRuns × SalvagedRuns × Names }
{}
