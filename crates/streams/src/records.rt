//! Step records before any is written.

use theory::step::Step;

/// A row of step records before any is written; 33 such rows have room for the 2,013 steps of the largest list. In place of one array
/// of blank records, which today's compiler clears by a call of the C library, where each of its 32,208 bytes counts as an instruction:
/// that was a third of what a short text took and more. Rows are copied, many bytes an instruction, as long as a blank record
/// is not the same in all its bytes: then copying would be clearing again.
pub const ROW: [Step; 61] = [Step::Edge { v: 0, w: 1 }; 61];
