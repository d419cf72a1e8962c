// The table of the projections, a row for each kind: "the ten outlines" of document 01, of which order 2 exchanged kinds 3 and 4, the
// Sinusoidal and Eckert V.
ghost use Rattle.std.specs.Prelude.{◌≡◌};
ghost use Rattle.parallel.specs.Kind.{number_of};
ghost use Rattle.parallel.specs.Table.{row_of};

use super::kind::Kind;

// How a row has its q.
#[derive(Clone, Copy)]
pub enum Method {
    Root,
    Quotient,
    Unused,
    Cosine,
}

#[derive(Clone, Copy)]
pub struct Row {
    pub kx: u32,
    pub ky: u32,
    pub a: i8,
    pub b: i8,
    pub e: i8,
    pub method: Method,
}

const KINDS: usize = 12;

const ROWS: [Row; KINDS] = [
    // 1: Plate Carrée
    Row {
        kx: 314159265,
        ky: 314159265,
        a: 2,
        b: 0,
        e: 0,
        method: Method::Unused,
    },
    // 2: Apian II
    Row {
        kx: 314159265,
        ky: 314159265,
        a: 0,
        b: 2,
        e: -4,
        method: Method::Root,
    },
    // 3: Putniņš P1
    Row {
        kx: 595300392,
        ky: 297650196,
        a: -1,
        b: 2,
        e: -3,
        method: Method::Root,
    },
    // 4: Wagner VI
    Row {
        kx: 297650196,
        ky: 297650196,
        a: 0,
        b: 2,
        e: -3,
        method: Method::Root,
    },
    // 5: Eckert III
    Row {
        kx: 132650043,
        ky: 265300086,
        a: 2,
        b: 2,
        e: -4,
        method: Method::Root,
    },
    // 6: Kavraisky VII
    Row {
        kx: 272069905,
        ky: 314159265,
        a: 0,
        b: 2,
        e: -3,
        method: Method::Root,
    },
    // 7: Putniņš P3
    Row {
        kx: 250662827,
        ky: 250662827,
        a: 0,
        b: 2,
        e: -4,
        method: Method::Quotient,
    },
    // 8: Putniņš P3'
    Row {
        kx: 250662827,
        ky: 250662827,
        a: 0,
        b: 2,
        e: -2,
        method: Method::Quotient,
    },
    // 9: Putniņš P5
    Row {
        kx: 318387849,
        ky: 318387849,
        a: 4,
        b: -2,
        e: 12,
        method: Method::Root,
    },
    // 10: Putniņš P5'
    Row {
        kx: 318387849,
        ky: 318387849,
        a: 3,
        b: -1,
        e: 12,
        method: Method::Root,
    },
    // 11: Sinusoidal
    Row {
        kx: 314159265,
        ky: 314159265,
        a: 0,
        b: 2,
        e: 0,
        method: Method::Cosine,
    },
    // 12: Eckert V
    Row {
        kx: 277096497,
        ky: 277096497,
        a: 1,
        b: 1,
        e: 0,
        method: Method::Cosine,
    },
];

impl Kind {
    // The row of a kind, taken field by field: a copy of the whole would wait for its narrow last field.
    #[tactic(auto, unfolding(crate::specs::Table::rows, crate::specs::Table::row_of))]
    pub(crate) fn row(self) -> Row
        ensures { result ≡ row_of (number_of self) }
    {
        let row = &ROWS[self as usize - 1];
        Row {
            kx: row.kx,
            ky: row.ky,
            a: row.a,
            b: row.b,
            e: row.e,
            method: row.method,
        }
    }
}
