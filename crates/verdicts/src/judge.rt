//! What stands against a build request.
ghost use Rattle.std.specs.Prelude.{◌≡◌, ◌<◌};
ghost use Rattle.verdicts.specs.Judge.{sets_judged};

use refusals::build::BuildFault;
use sets::set::TableSet;

/// 6, 7, 8 and 9, in this order: how many tables there are, which of them are not reached and which are articulation tables, and
/// how many records are needed and lent.
pub fn judge(
    tables: u32,
    unreached: TableSet,
    articulations: TableSet,
    needed: usize,
    room: usize,
) -> Result<(), BuildFault>
    ensures answer { result ≡ sets_judged tables unreached articulations needed room }
    // as sets of 64 tables they have no further bits
    ensures fits { (unreached < 18446744073709551616) × (articulations < 18446744073709551616) }
{
    if tables < 3 {
        return Err(BuildFault::TooSmall);
    }
    if let Some(table) = unreached.first() {
        return Err(BuildFault::Unreached { table });
    }
    if let Some(table) = articulations.first() {
        return Err(BuildFault::Articulation { table });
    }
    if room < needed {
        return Err(BuildFault::TooFewRecords { needed });
    }
    Ok(())
}
