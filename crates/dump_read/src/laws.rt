//! What holds of dump texts whatever reads or writes them.

ghost use Rattle.dump_read.specs.DumpLaws.{NoneBeginsAnother, OneHeader, OneFront, OneDump};
ghost use Rattle.dump_read.specs.FaultLaws.{NothingIsWrong, OneIsWrong};
ghost use Rattle.dump_read.specs.Shape.{FrontsGoOn, PiecesStandBehind, ShapesGoOn, NoShapeBeginsAnother};

/// No dump text begins another one, and a text tells its header, and all that stands behind it.
pub fn dump_laws()
    ensures none { NoneBeginsAnother }
    ensures header { OneHeader }
    ensures front { OneFront }
    ensures one { OneDump }
{}

/// What can be ended is the front of a shape; a shape that begins with what stands goes on with a piece or ends; and no shape begins another one.
pub fn shape_laws()
    ensures fronts { FrontsGoOn }
    ensures pieces { PiecesStandBehind }
    ensures shapes { ShapesGoOn }
    ensures none { NoShapeBeginsAnother }
{}

/// Nothing is wrong with a dump, and one thing with what is none.
pub fn fault_laws()
    ensures none { NothingIsWrong }
    ensures one { OneIsWrong }
{}
