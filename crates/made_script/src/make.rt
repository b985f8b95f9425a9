//! A script is made of a seed.
ghost use Rattle.std.specs.Prelude.{◌≡◌, ◌≤◌, ◌<◌, ◌+◌, ◌^◌, ◌%◌, ◌++◌, OnOk, IfOk};
ghost use Rattle.std.specs.Fmt.{decimal};
ghost use Rattle.made_script.specs.Generator.{next, node_at};
ghost use Rattle.made_script.specs.Made.{add_line, lines_before, lines_behind, lines_around, line_text, text_of, made_text};

use delos_types::bytes::Bytes;
use itoa::Buffer;
use std::alloc::{AllocError, Global};

// The generator's numbers are below 2^31.
const MODULUS: u64 = 0x8000_0000;

// The generator's next number.
fn next(number: u64) -> u64
    requires { number < 2 ^ 31 }
    ensures { result ≡ next number }
{
    (1_103_515_245 * number + 12_345) % MODULUS
}

// The node of the i-th command: the nodes take turns.
fn node_at(nodes: u8, i: u64) -> u8
    requires least { 1 ≤ nodes }
    requires most { nodes ≤ 8 }
    requires command { 1 ≤ i }
    ensures node { result ≡ node_at nodes i }
    ensures most { result ≤ nodes }
{
    1 + ((i - 1) % u64::from(nodes)) as u8
}

fn push_number(out: &mut Vec<u8>, n: u64) -> Result<(), AllocError>
    ensures { OnOk result (out.new.items ≡ out.old.items ++ decimal n) }
{
    let mut buffer = Buffer::new();
    out.extend_from_slice(buffer.format(n).as_bytes())
}

// `on nNODE sNODE add kKEY AMOUNT` and LF.
fn push_add(out: &mut Vec<u8>, node: u8, key: u64, amount: u64) -> Result<(), AllocError>
    requires { node ≤ 8 }
    ensures { OnOk result (out.new.items ≡ out.old.items ++ line_text (add_line node key amount)) }
{
    let digit = b'0' + node;
    out.extend_from_slice(&[b'o', b'n', b' ', b'n', digit, b' ', b's', digit])?;
    out.extend_from_slice(b" add k")?;
    push_number(out, key)?;
    out.extend_from_slice(b" ")?;
    push_number(out, amount)?;
    out.extend_from_slice(b"\n")
}

// The line before the i-th command, where there is one.
fn push_before(out: &mut Vec<u8>, i: u64) -> Result<(), AllocError>
    ensures { OnOk result (out.new.items ≡ out.old.items ++ text_of (lines_before i)) }
{
    if i % 100 == 51 {
        out.extend_from_slice(b"on n1 extend\n")
    } else {
        Ok(())
    }
}

// The line behind the i-th command, where there is one.
fn push_behind(out: &mut Vec<u8>, i: u64) -> Result<(), AllocError>
    ensures { OnOk result (out.new.items ≡ out.old.items ++ text_of (lines_behind i)) }
{
    if i % 100 == 0 {
        out.extend_from_slice(b"barrier\n")
    } else {
        Ok(())
    }
}

// The i-th command, which is this node's and is made of the number drawn, and the lines around it.
fn push_lines(out: &mut Vec<u8>, i: u64, node: u8, drawn: u64) -> Result<(), AllocError>
    requires { node ≤ 8 }
    ensures { OnOk result (out.new.items ≡ out.old.items ++ text_of (lines_around i (add_line node (drawn % 16) (drawn % 100)))) }
{
    push_before(out, i)?;
    push_add(out, node, drawn % 16, drawn % 100)?;
    push_behind(out, i)
}

/// The script of `count` commands, 15,000 at most, that a seed makes for nodes 1 to `nodes`. Each
/// command adds 0 to 99 to one of 16 keys, and the nodes take turns, each with a session of its own.
/// Before each command whose number ends in 51 node 1 extends the chain, and behind each hundredth
/// the phase ends.
pub fn make_script(alloc: Global, seed: u32, count: u16, nodes: u8) -> Result<Bytes, AllocError>
    requires least { 1 ≤ nodes }
    requires most { nodes ≤ 8 }
    requires commands { count ≤ 15000 }
    ensures { IfOk result (λ bytes. bytes ≡ made_text seed count nodes) }
{
    let mut out = Vec::new(alloc);
    let mut number = u64::from(seed) % MODULUS;
    for i in 1..=u64::from(count) {
        number = next(number);
        push_lines(&mut out, i, node_at(nodes, i), number / 65_536)?;
    }
    Ok(Bytes::from_vec(out))
}
