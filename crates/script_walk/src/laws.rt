//! Laws of scripts, over the definitions alone. Each is a function without parameters whose contract is the law.
//! docs/MACHINE.md, "Scripts", reads them in prose.
ghost use Rattle.script_walk.specs.Laws.{BytesHaveAReading, ReadingsAreOne, PartsAreNotOff, ScriptsAreNotRefused, LittleIsReadAhead};

/// Any bytes are whole lines with their raw bytes, each read, and then no whole one or one off the grammar.
pub fn bytes_have_a_reading()
    ensures { BytesHaveAReading }
{}

/// There is one such reading of any bytes: one list of whole lines, one first line off the grammar.
pub fn readings_are_one()
    ensures { ReadingsAreOne }
{}

/// What is no whole line with its raw bytes is not off the grammar, so a reading ends in one way.
pub fn parts_are_not_off()
    ensures { PartsAreNotOff }
{}

/// A script inside the grammar and within the limit isn't refused: without a fault its walk is done.
pub fn scripts_are_not_refused()
    ensures { ScriptsAreNotRefused }
{}

/// What a walk has taken behind the lines that were worked through and written before its last read is part of a line
/// with its raw bytes, and the bytes of that read: at most 520 bytes, 65,536 and 4,096.
pub fn little_is_read_ahead()
    ensures { LittleIsReadAhead }
{}
