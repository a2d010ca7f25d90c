// The lines that the program writes, each printed into a lent part from a position on. Each function answers the next position.
ghost use Rattle.std.specs.Prelude.{◌+◌, ◌≤◌, length};
ghost use Rattle.listing.specs.Lines.{Printed, write_head, write_line, erase_line, end_line, refused_line, unreadable_line};

use crate::digits::{put_decimal, put_field, put_hex, put_text};

// The start of a write's line, which both forms have.
pub fn put_head(out: &mut [u8], at: usize, step: usize, block: usize, page: usize) -> usize
    requires { at + length (write_head step block page) ≤ length out.old }
    ensures { Printed (write_head step block page) out.old at out.new result }
{
    let past_step = put_decimal(out, at, step);
    let past_block = put_field(out, past_step, b" W ", block);
    put_field(out, past_block, b" ", page)
}

pub fn put_write(
    out: &mut [u8],
    at: usize,
    step: usize,
    block: usize,
    page: usize,
    bytes: &[u8],
) -> usize
    requires { at + length (write_line step block page bytes.now) ≤ length out.old }
    ensures { Printed (write_line step block page bytes.now) out.old at out.new result }
{
    let past_page = put_head(out, at, step, block, page);
    let past_space = put_text(out, past_page, b" ");
    let past_bytes = put_hex(out, past_space, bytes);
    put_text(out, past_bytes, b"\n")
}

pub fn put_erase(out: &mut [u8], at: usize, step: usize, block: usize) -> usize
    requires { at + length (erase_line step block) ≤ length out.old }
    ensures { Printed (erase_line step block) out.old at out.new result }
{
    let past_step = put_decimal(out, at, step);
    let past_block = put_field(out, past_step, b" E ", block);
    put_text(out, past_block, b"\n")
}

pub fn put_end(out: &mut [u8], at: usize, writes: usize, erases: usize) -> usize
    requires { at + length (end_line writes erases) ≤ length out.old }
    ensures { Printed (end_line writes erases) out.old at out.new result }
{
    let past_writes = put_field(out, at, b"end ", writes);
    let past_erases = put_field(out, past_writes, b" ", erases);
    put_text(out, past_erases, b"\n")
}

pub fn put_refused(out: &mut [u8], at: usize, number: usize) -> usize
    requires { at + length (refused_line number) ≤ length out.old }
    ensures { Printed (refused_line number) out.old at out.new result }
{
    let past_number = put_field(out, at, b"refused ", number);
    put_text(out, past_number, b"\n")
}

pub fn put_unreadable(out: &mut [u8], at: usize) -> usize
    requires { at + length unreadable_line ≤ length out.old }
    ensures { Printed unreadable_line out.old at out.new result }
{
    put_text(out, at, b"unreadable\n")
}
