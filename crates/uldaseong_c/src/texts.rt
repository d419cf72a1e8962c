// Positions read from text and written as text.
ghost use Rattle.std.specs.Prelude.{◌≡◌, length};
ghost use Rattle.refusal.specs.Outcome.{or_else};
ghost use Rattle.iso6709.specs.Answer.{read_of, write_of};
ghost use Rattle.uldaseong.specs.Status.{status_of, pair_after};

#[unsafe(no_mangle)]
pub extern "C" fn uldaseong_read_text(text: &[u8], position: &mut [i32; 2]) -> u8
    ensures value { result ≡ status_of (read_of text.now) }
    ensures position_after { position.new ≡ pair_after position.old (read_of text.now) }
{
    uldaseong::uldaseong_read_text(text, position)
}

#[unsafe(no_mangle)]
pub extern "C" fn uldaseong_write_text(longitude: i32, latitude: i32, text: &mut [u8]) -> u8
    ensures value { result ≡ status_of (write_of longitude latitude (length text.old)) }
    ensures text_after { text.new ≡ or_else text.old (write_of longitude latitude (length text.old)) }
{
    uldaseong::uldaseong_write_text(longitude, latitude, text)
}
