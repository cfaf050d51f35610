//! The memory that can be written, as lines of sixteen bytes.

ghost use Rattle.std.specs.Prelude.{◌≡◌, ◌+◌, ◌*◌, ◌<◌, ◌≤◌, ◌^◌, [], length, if◌then◌else◌};
ghost use Rattle.std.specs.List.{flat_map, list_any};
ghost use Rattle.swi_memory.specs.Bus.{grants};
ghost use Rattle.swi_memory.specs.declared.right.Right.TheVariants.{Write};
ghost use Rattle.swi_outside.specs.Sink.{WasWritten};
ghost use Rattle.swi_report.specs.State.{byte_in, is_nonzero, row_at, row_line, row_text, rows_text, area_text};

use swi_line::Line;
use swi_memory::{Area, Bus, Right};
use swi_outside::{Failed, Sink};

/// The byte at the address, where the area has one.
fn byte_in(area: &Area<'_>, address: u32) -> Option<u8>
    ensures { result ≡ byte_in area.now.base area.now.bytes.now address }
{
    let offset = address.checked_sub(area.base)?;
    area.bytes.get(offset as usize).copied()
}

/// The sixteen bytes from the address on.
fn row_at(area: &Area<'_>, address: u32) -> [Option<u8>; 16]
    requires { address + 16 ≤ 2 ^ 32 }
    ensures { result ≡ row_at area.now.base area.now.bytes.now address }
{
    let mut row = [None; 16];
    for (offset, byte) in row.iter_mut().enumerate() {
        *byte = byte_in(area, address + offset as u32);
    }
    row
}

/// Whether one of the bytes isn't zero.
fn has_nonzero(row: &[Option<u8>; 16]) -> bool
    ensures { result ≡ list_any is_nonzero row.now }
{
    row.iter().any(|byte| is_nonzero(*byte))
}

fn is_nonzero(byte: Option<u8>) -> bool
    ensures { result ≡ is_nonzero byte }
{
    matches!(byte, Some(1..))
}

fn row_line(address: u32, row: &[Option<u8>; 16]) -> Line
    ensures { result ≡ row_line address row.now }
{
    let mut line = Line::new();
    line.push_hex_word(address);
    line.push_text(":");
    for byte in row {
        match byte {
            Some(byte) => {
                line.push_text(" ");
                line.push_hex_byte(*byte);
            }
            None => line.push_text(" --"),
        }
    }
    line.push_text("\n");
    line
}

/// Writes the line of sixteen bytes, unless all are zero or outside.
fn write_row<S: Sink>(area: &Area<'_>, address: u32, sink: &mut S) -> Result<(), Failed>
    requires { address + 16 ≤ 2 ^ 32 }
    ensures { WasWritten (S.state sink.old) (S.state sink.new) result
        (row_text address (row_at area.now.base area.now.bytes.now address)) }
{
    let row = row_at(area, address);
    if has_nonzero(&row) {
        sink.write(row_line(address, &row).as_bytes())
    } else {
        Ok(())
    }
}

/// Writes the lines of an area's bytes.
fn write_rows<S: Sink>(area: &Area<'_>, sink: &mut S) -> Result<(), Failed>
    requires { area.now.base + length area.now.bytes.now ≤ 2 ^ 32 }
    ensures { WasWritten (S.state sink.old) (S.state sink.new) result
        (rows_text area.now.base area.now.bytes.now) }
{
    let first = area.base / 16;
    let end = u64::from(area.base) + area.bytes.len() as u64;
    for row in first..end.div_ceil(16) as u32 {
        write_row(area, 16 * row, sink)?;
    }
    Ok(())
}

/// Writes the lines of an area, where it can be written.
fn write_area<S: Sink>(area: &Area<'_>, sink: &mut S) -> Result<(), Failed>
    requires { area.now.base + length area.now.bytes.now ≤ 2 ^ 32 }
    ensures { WasWritten (S.state sink.old) (S.state sink.new) result
        (if grants Write area.now.flags then rows_text area.now.base area.now.bytes.now else []) }
{
    if Right::Write.grants(area.flags) {
        write_rows(area, sink)
    } else {
        Ok(())
    }
}

/// Writes the lines of the areas that can be written.
pub fn write_memory<S: Sink>(bus: &Bus, sink: &mut S) -> Result<(), Failed>
    ensures { WasWritten (S.state sink.old) (S.state sink.new) result (flat_map area_text bus.now) }
{
    for k in 0..bus.areas() {
        write_area(&bus.area(k), sink)?;
    }
    Ok(())
}
