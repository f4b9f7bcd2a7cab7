//! What holds of the parts of a dump, whoever reads them.

ghost use Rattle.dump_parts.specs.Laws.{FrontsAreOfTheirDump};

use dump_read::dump_laws;

/// What was read so far of a reel that holds a dump is a front of that dump: its parts are the first of the dump, and the one under way begins the next.
pub fn part_laws()
    ensures { FrontsAreOfTheirDump }
{
    dump_laws();
}
