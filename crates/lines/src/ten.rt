// The ten numbers of a statement line.
ghost use Rattle.std.specs.Prelude.{map, MatchResult};
ghost use Rattle.lines.specs.Grammar.{Writes, Stuck, Done, ten_numbers, TenRead};

use super::scan::{Width, read_feed, value_of};

// The digits of the ten numbers, into `out`.
fn scan_ten<'a>(line: &'a [u8], out: &mut [&'a [u8]; 10]) -> Result<(), usize>
    ensures { MatchResult result (λ _. TenRead line.now (map (λ f. f.now) out.new)) (λ left. Stuck (Writes ten_numbers) line.now left) }
{
    let (first, more) = Width::OF_STATEMENT.read_number(line)?;
    out[0] = first;
    let end = Width::OF_STATEMENT.read_fields(more, &mut out[1..])?;
    read_feed(end)
}

// The ten numbers of a statement line.
pub(crate) fn read_ten(line: &[u8]) -> Result<[u64; 10], usize>
    ensures { MatchResult result (λ ns. Done (Writes ten_numbers) line.now ns) (λ left. Stuck (Writes ten_numbers) line.now left) }
{
    let mut digits: [&[u8]; 10] = [&[]; 10];
    scan_ten(line, &mut digits)?;
    Ok(digits.map(value_of))
}
