// The functions of the crate exports under the C calling convention, with the same clauses: the static library for programs in C and Rust.
// harness/barnshiver.h declares them and says what each number and byte is.
// Stays: numbers and parameters are those of the C interface, and so are the two maps, which differ in the scale that they map to.
#![tactic(auto)]

ghost use Rattle.std.specs.Prelude.{◌≡◌, length};
ghost use Rattle.tags.specs.Tags.{at, global_to_local, local_to_global};
ghost use Rattle.table.specs.Check.{check};
ghost use Rattle.byte_writer.specs.Written.{Written};
ghost use Rattle.table_writer.specs.Writer.{writing};
ghost use Rattle.day_run.specs.Days.{fitting, day_answers};
ghost use Rattle.day_rescue.specs.Rescue.{answered};
ghost use Rattle.exports.specs.Told.{tag_bytes, mapped_bytes, told};
ghost use Rattle.exports.specs.State.{state_told};
ghost use Rattle.exports.specs.Answers.{check_told, write_told, rescue_bytes, mapped, map_told};

#[unsafe(no_mangle)]
pub extern "C" fn barnshiver_state_after(day: &[u8], state: &mut [u8]) -> u8
    ensures { told result state.new ≡ state_told day.now state.old }
{
    exports::barnshiver_state_after(day, state)
}

#[unsafe(no_mangle)]
pub extern "C" fn barnshiver_run_day(day: &[u8], lines: &mut [u8]) -> usize
    ensures { Written lines.old 0 (fitting (length lines.old) (day_answers day.now)) lines.new result }
{
    exports::barnshiver_run_day(day, lines)
}

#[unsafe(no_mangle)]
pub extern "C" fn barnshiver_check_table(image: &[u8], place: &mut [u8]) -> u8
    ensures { told result place.new ≡ check_told (check image.now) place.old }
{
    exports::barnshiver_check_table(image, place)
}

#[unsafe(no_mangle)]
pub extern "C" fn barnshiver_write_table(counts: &[u8], rows: &[u8], buffer: &mut [u8]) -> u64
    ensures { told result buffer.new ≡ write_told (writing counts.now rows.now buffer.old) }
{
    exports::barnshiver_write_table(counts, rows, buffer)
}

#[unsafe(no_mangle)]
pub extern "C" fn barnshiver_rescue(day: &[u8], output: &mut [u8], report: &mut [u8]) -> u64
    ensures { answered result output.new report.new ≡ rescue_bytes day.now output.old report.old }
{
    exports::barnshiver_rescue(day, output, report)
}

#[unsafe(no_mangle)]
pub extern "C" fn barnshiver_global_to_local(
    clock: &[u8],
    offset: u64,
    microstep: u32,
    tag: &mut [u8],
) -> u8
    ensures { told result tag.new ≡ map_told tag_bytes 12 (mapped global_to_local clock.now (at offset microstep)) tag.old }
{
    exports::barnshiver_global_to_local(clock, offset, microstep, tag)
}

#[unsafe(no_mangle)]
pub extern "C" fn barnshiver_local_to_global(
    clock: &[u8],
    offset: u64,
    microstep: u32,
    tag: &mut [u8],
) -> u8
    ensures { told result tag.new ≡ map_told mapped_bytes 13 (mapped local_to_global clock.now (at offset microstep)) tag.old }
{
    exports::barnshiver_local_to_global(clock, offset, microstep, tag)
}
