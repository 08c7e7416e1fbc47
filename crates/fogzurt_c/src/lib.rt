// The C entry points, one for each operation: those of crate fogzurt, with its clauses. include/fogzurt.h says what C sees of them.
#![tactic(auto)]

ghost use Rattle.std.specs.Prelude.{◌≡◌, length};
ghost use Rattle.code_theory.specs.Operations.{encode_refusal, encode_output};
ghost use Rattle.queue_theory.specs.Allowed.{FormatAllows, EnqueueAllows, PeekAllows, DequeueAllows};
ghost use Rattle.converter.specs.Conversion.{convert_refusal, convert_output};
ghost use Rattle.fogzurt.specs.Packed.{PackedAllows, SyndromePackedAllows};

// 01: Write.
#[unsafe(no_mangle)]
pub extern "C" fn fogzurt_encode(
    edition: usize,
    profile: usize,
    rule: usize,
    first: &[u8],
    second: &[u8],
    out: &mut [u8],
) -> u64
    ensures value { result ≡ encode_refusal edition profile rule first.now second.now (length out.old) }
    ensures out_after { out.new ≡ encode_output edition profile rule first.now second.now out.old }
{
    fogzurt::fogzurt_encode(edition, profile, rule, first, second, out)
}

// 01: Read.
#[unsafe(no_mangle)]
pub extern "C" fn fogzurt_decode(
    edition: usize,
    profile: usize,
    word: &[u8],
    first: &mut [u8],
    second: &mut [u8],
) -> u64
    ensures { PackedAllows edition profile word.now result
        first.old first.new second.old second.new }
{
    fogzurt::fogzurt_decode(edition, profile, word, first, second)
}

// 02, T-09: Read by the syndromes. The same answer, with 0 for how many positions were tried.
#[unsafe(no_mangle)]
pub extern "C" fn fogzurt_syndrome_decode(
    edition: usize,
    profile: usize,
    word: &[u8],
    first: &mut [u8],
    second: &mut [u8],
) -> u64
    ensures { SyndromePackedAllows edition profile word.now result
        first.old first.new second.old second.new }
{
    fogzurt::fogzurt_syndrome_decode(edition, profile, word, first, second)
}

// 02, T-04: a word of one edition into that of the other.
#[unsafe(no_mangle)]
pub extern "C" fn fogzurt_convert(
    edition: usize,
    profile: usize,
    word: &[u8],
    out: &mut [u8],
) -> u64
    ensures value { result ≡ convert_refusal edition profile word.now (length out.old) }
    ensures out_after { out.new ≡ convert_output edition profile word.now out.old }
{
    fogzurt::fogzurt_convert(edition, profile, word, out)
}

// 01: Lay out.
#[unsafe(no_mangle)]
pub extern "C" fn fogzurt_sheet_format(sheet: &mut [u8]) -> u64
    ensures { FormatAllows sheet.old result sheet.new }
{
    fogzurt::fogzurt_sheet_format(sheet)
}

// 01: Enter.
#[unsafe(no_mangle)]
pub extern "C" fn fogzurt_sheet_enqueue(
    sheet: &mut [u8],
    boxno: usize,
    profile: usize,
    word: &[u8],
) -> u64
    ensures { EnqueueAllows sheet.old boxno profile word.now result sheet.new }
{
    fogzurt::fogzurt_sheet_enqueue(sheet, boxno, profile, word)
}

// 01: Look.
#[unsafe(no_mangle)]
pub extern "C" fn fogzurt_sheet_peek(sheet: &[u8], number: usize, out: &mut [u8]) -> u64
    ensures { PeekAllows sheet.now number out.old result out.new }
{
    fogzurt::fogzurt_sheet_peek(sheet, number, out)
}

// 01: Take off.
#[unsafe(no_mangle)]
pub extern "C" fn fogzurt_sheet_dequeue(sheet: &mut [u8], out: &mut [u8]) -> u64
    ensures { DequeueAllows sheet.old out.old result sheet.new out.new }
{
    fogzurt::fogzurt_sheet_dequeue(sheet, out)
}
