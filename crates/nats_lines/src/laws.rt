//! What holds of the grammar of server operations, whatever the text. Each function does nothing: its contract is the
//! law, so the law is proved where the function is.
ghost use Rattle.nats_lines.specs.Laws.{GotStays, FaultStays, BehindNext, ThereStays, ThereNext, OperationAt, OperationsEnd, CutAnywhere};

/// An operation at the front of a text is nonempty, within the text, and stands there too when the text grows: no byte
/// that comes later changes what was read.
pub fn got_stays()
    ensures { GotStays }
{}

/// So is and does a fault, which may take no byte.
pub fn fault_stays()
    ensures { FaultStays }
{}

/// The place behind one more operation is past the operation that stands at the place before.
pub fn behind_next()
    ensures { BehindNext }
{}

/// Operations that are there stay there as the text grows, and what is behind them grows with it.
pub fn there_stays()
    ensures { ThereStays }
{}

/// One more operation is there where one stands behind those that are there.
pub fn there_next()
    ensures { ThereNext }
{}

/// The operation that stands behind some operations is the text's operation of that index.
pub fn operation_at()
    ensures { OperationAt }
{}

/// Where no operation stands behind some operations, the text has no more.
pub fn operations_end()
    ensures { OperationsEnd }
{}

/// Reading a text that comes in two pieces, cut anywhere, reads what the whole text has.
pub fn cut_anywhere()
    ensures { CutAnywhere }
{}
