// The lines of the answer, written into a lent buffer.
ghost use Rattle.std.specs.Prelude.{◌≡◌, ◌+◌, ◌-◌, ◌≤◌, ◌<◌, length};
ghost use Rattle.numbers.specs.Overlay.{overlay};
ghost use Rattle.order.specs.Text.{decimal, hexadecimal, hex_at, build_byte, query_byte};

use crate::asking::Line;

// The decimal digit of a worth.
fn decimal(n: u64, worth: u64) -> u8
    requires { 0 < worth }
    ensures { result ≡ decimal n worth }
{
    (48 + n / worth % 10) as u8
}

fn hexadecimal(d: u64) -> u8
    requires { d < 16 }
    ensures { result ≡ hexadecimal d }
{
    if d < 10 {
        return (48 + d) as u8;
    }
    (87 + d) as u8
}

// Sixteen hexadecimal digits, the most significant first. By places, as all of a line is written and as the contract has it.
fn put_hex(out: &mut [u8], at: usize, w: u64)
    requires { (at ≤ 4096) × (at + 16 ≤ length out.old) }
    ensures { out.new ≡ overlay at 16 (hex_at w) out.old }
{
    let mut left = w;
    for k in 0..16 {
        out[at + k] = hexadecimal(left / 0x1000_0000_0000_0000);
        left = left % 0x1000_0000_0000_0000 * 16;
    }
}

// `B rr nnnn`
pub(crate) fn put_build(out: &mut [u8], refusal: u64, sections: u64)
    requires { 10 ≤ length out.old }
    ensures { out.new ≡ overlay 0 10 (build_byte refusal sections) out.old }
{
    out[0] = b'B';
    out[1] = b' ';
    out[2] = decimal(refusal, 10);
    out[3] = decimal(refusal, 1);
    out[4] = b' ';
    out[5] = decimal(sections, 1000);
    out[6] = decimal(sections, 100);
    out[7] = decimal(sections, 10);
    out[8] = decimal(sections, 1);
    out[9] = b'\n';
}

// `Q rr `
fn put_start(out: &mut [u8], at: usize, refusal: u64)
    requires { (at ≤ 4096) × (at + 39 ≤ length out.old) }
    ensures { out.new ≡ overlay at 5 (query_byte refusal 0 0) out.old }
{
    out[at] = b'Q';
    out[at + 1] = b' ';
    out[at + 2] = decimal(refusal, 10);
    out[at + 3] = decimal(refusal, 1);
    out[at + 4] = b' ';
}

// `Q rr v p`
pub(crate) fn put_query(out: &mut [u8], at: usize, line: Line)
    requires { (at ≤ 4000) × (at + 39 ≤ length out.old) }
    ensures { out.new ≡ overlay at 39 (query_byte line.refusal line.value line.primitive) out.old }
{
    put_start(out, at, line.refusal);
    put_hex(out, at + 5, line.value);
    out[at + 21] = b' ';
    put_hex(out, at + 22, line.primitive);
    out[at + 38] = b'\n';
}
