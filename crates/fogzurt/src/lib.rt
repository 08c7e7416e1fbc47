// What the C entry points answer, one function for each operation. Crate fogzurt_c exports them; include/fogzurt.h says what C sees of them.
#![tactic(auto)]

ghost use Rattle.std.specs.Prelude.{◌≡◌, ◌≤◌, length, nat_abs, Ok};
ghost use Rattle.code_theory.specs.Operations.{encode_refusal, encode_output};
ghost use Rattle.queue_theory.specs.Allowed.{FormatAllows, EnqueueAllows, PeekAllows, DequeueAllows};
ghost use Rattle.converter.specs.Conversion.{convert_refusal, convert_output};
ghost use Rattle.decoder.specs.Decode.{report_of, decoded_report};
ghost use Rattle.fogzurt.specs.Packed.{parts_of, twos, packed, PackedAllows, SyndromePackedAllows, Within};

use decoder::{Changes, Decoded, Decoding};
use refusals::Refusal;

// The kinds of a decoded word, as C sees them.
const CLEAN: u8 = 1;

const CORRECTED: u8 = 2;

const FILLED: u8 = 3;

// 01: Write.
#[tactic(auto, using(crate::proofs::Outcome::number_told))]
pub fn fogzurt_encode(
    edition: usize,
    profile: usize,
    rule: usize,
    first: &[u8],
    second: &[u8],
    out: &mut [u8],
) -> u64
    ensures value { result ≡ encode_refusal edition profile rule first.now second.now (length out.old) }
    ensures out_after { out.new ≡ encode_output edition profile rule first.now second.now out.old }
{
    refusals::number(encoder::encode(edition, profile, rule, first, second, out))
}

// 01: Read.
pub fn fogzurt_decode(
    edition: usize,
    profile: usize,
    word: &[u8],
    first: &mut [u8],
    second: &mut [u8],
) -> u64
    ensures { PackedAllows edition profile word.now result
        first.old first.new second.old second.new }
{
    pack(decoder::decode(edition, profile, word, first, second))
}

// 02, T-09: Read by the syndromes. The same answer, with 0 for how many positions were tried.
pub fn fogzurt_syndrome_decode(
    edition: usize,
    profile: usize,
    word: &[u8],
    first: &mut [u8],
    second: &mut [u8],
) -> u64
    ensures { SyndromePackedAllows edition profile word.now result
        first.old first.new second.old second.new }
{
    let answer = decoder::syndrome_decode(edition, profile, word, first, second);
    pack(Decoding { answer, tried: 0 })
}

// A signed number in a byte: -n is 256 - n.
fn byte_of(e: i16) -> u8
    requires { nat_abs e ≤ 127 }
    ensures { result ≡ twos e }
{
    (e as i8).cast_unsigned()
}

// A word that is read, in one number: eight bytes, of which the first is the number 0, and the last how many positions were tried.
#[tactic(auto, unfolding(crate::specs::Packed::packed))]
fn pack_read(decoded: Decoded, tried: usize) -> u64
    requires { Within (parts_of (report_of tried (Ok decoded))) }
    ensures { result ≡ packed (report_of tried (Ok decoded)) }
{
    let t = tried as u8;
    let bytes = match decoded {
        Decoded::Clean => [0, CLEAN, 0, 0, 0, 0, 0, t],
        Decoded::Corrected(c) => {
            let error = byte_of(c.error);
            [0, CORRECTED, c.position as u8, c.symbol, 0, 0, error, t]
        }
        Decoded::Filled(Changes::One(c)) => [0, FILLED, c.position as u8, c.symbol, 0, 0, 0, t],
        Decoded::Filled(Changes::Two(c, d)) => {
            let (j, k) = (c.position as u8, d.position as u8);
            [0, FILLED, j, c.symbol, k, d.symbol, 0, t]
        }
    };
    u64::from_le_bytes(bytes)
}

// Decode's answer in one number.
#[tactic(auto, unfolding(crate::specs::Packed::packed))]
fn pack(decoding: Decoding) -> u64
    requires { Within (parts_of (decoded_report decoding)) }
    ensures { result ≡ packed (decoded_report decoding) }
{
    match decoding.answer {
        Ok(decoded) => pack_read(decoded, decoding.tried),
        Err(Refusal::Unreadable) => {
            let number = u8::from(Refusal::Unreadable);
            let tried = decoding.tried as u8;
            u64::from_le_bytes([number, 0, 0, 0, 0, 0, 0, tried])
        }
        Err(refusal) => u64::from(u8::from(refusal)),
    }
}

// 02, T-04: a word of one edition into that of the other.
#[tactic(auto, using(crate::proofs::Outcome::number_told))]
pub fn fogzurt_convert(edition: usize, profile: usize, word: &[u8], out: &mut [u8]) -> u64
    ensures value { result ≡ convert_refusal edition profile word.now (length out.old) }
    ensures out_after { out.new ≡ convert_output edition profile word.now out.old }
{
    refusals::number(converter::convert(edition, profile, word, out))
}

// 01: Lay out.
pub fn fogzurt_sheet_format(sheet: &mut [u8]) -> u64
    ensures { FormatAllows sheet.old result sheet.new }
{
    refusals::number(queue::format(sheet))
}

// 01: Enter.
pub fn fogzurt_sheet_enqueue(sheet: &mut [u8], boxno: usize, profile: usize, word: &[u8]) -> u64
    ensures { EnqueueAllows sheet.old boxno profile word.now result sheet.new }
{
    refusals::number(queue::enqueue(sheet, boxno, profile, word))
}

// 01: Look.
pub fn fogzurt_sheet_peek(sheet: &[u8], number: usize, out: &mut [u8]) -> u64
    ensures { PeekAllows sheet.now number out.old result out.new }
{
    refusals::number(queue::peek(sheet, number, out))
}

// 01: Take off.
pub fn fogzurt_sheet_dequeue(sheet: &mut [u8], out: &mut [u8]) -> u64
    ensures { DequeueAllows sheet.old out.old result sheet.new out.new }
{
    refusals::number(queue::dequeue(sheet, out))
}
