//! Numbers in bytes, the highest byte first, as every format of the product spells them.
ghost use Rattle.std.specs.Prelude.{◌≡◌, ◌<◌, ◌++◌, take, drop, length, MatchOption, OnOk, OnErr};
ghost use Rattle.delos_types.specs.Numbers.{u16_bytes, u32_bytes, u64_bytes, u16_of, u32_of, u64_of, Splits};

use byteorder::{BigEndian, ByteOrder};
use std::alloc::AllocError;

/// Adds the number's two bytes at the end.
#[tactic(auto, unfolding(crate::specs::Numbers::u16_bytes))]
pub fn put_u16(out: &mut Vec<u8>, number: u16) -> Result<(), AllocError>
    ensures ok { OnOk result (out.new.items ≡ out.old.items ++ u16_bytes number) }
    ensures err { OnErr result (out.new.items ≡ out.old.items) }
{
    let mut bytes = [0; 2];
    BigEndian::write_u16(&mut bytes, number);
    out.extend_from_slice(&bytes)?;
    Ok(())
}

/// Adds the number's four bytes at the end.
#[tactic(auto, unfolding(crate::specs::Numbers::u32_bytes))]
pub fn put_u32(out: &mut Vec<u8>, number: u32) -> Result<(), AllocError>
    ensures ok { OnOk result (out.new.items ≡ out.old.items ++ u32_bytes number) }
    ensures err { OnErr result (out.new.items ≡ out.old.items) }
{
    let mut bytes = [0; 4];
    BigEndian::write_u32(&mut bytes, number);
    out.extend_from_slice(&bytes)?;
    Ok(())
}

/// Adds the number's eight bytes at the end.
#[tactic(auto, unfolding(crate::specs::Numbers::u64_bytes))]
pub fn put_u64(out: &mut Vec<u8>, number: u64) -> Result<(), AllocError>
    ensures ok { OnOk result (out.new.items ≡ out.old.items ++ u64_bytes number) }
    ensures err { OnErr result (out.new.items ≡ out.old.items) }
{
    let mut bytes = [0; 8];
    BigEndian::write_u64(&mut bytes, number);
    out.extend_from_slice(&bytes)?;
    Ok(())
}

/// The number that the first two bytes spell, and the bytes after them; None where there are fewer.
#[tactic(auto, unfolding(crate::specs::Numbers::u16_of))]
pub fn split_u16(bytes: &[u8]) -> Option<(u16, &[u8])>
    ensures { MatchOption result (length bytes.now < 2) (λ p. Splits 2 u16_of bytes.now p.0 p.1.now) }
{
    if bytes.len() < 2 {
        return None;
    }
    let (front, rest) = bytes.split_at(2);
    let number = u16::from_be_bytes([front[0], front[1]]);
    Some((number, rest))
}

/// The number that the first four bytes spell, and the bytes after them; None where there are fewer.
#[tactic(auto, unfolding(crate::specs::Numbers::u32_of))]
pub fn split_u32(bytes: &[u8]) -> Option<(u32, &[u8])>
    ensures { MatchOption result (length bytes.now < 4) (λ p. Splits 4 u32_of bytes.now p.0 p.1.now) }
{
    if bytes.len() < 4 {
        return None;
    }
    let (front, rest) = bytes.split_at(4);
    let number = u32::from_be_bytes([front[0], front[1], front[2], front[3]]);
    Some((number, rest))
}

/// The number that the first eight bytes spell, and the bytes after them; None where there are fewer.
#[tactic(auto, unfolding(crate::specs::Numbers::u64_of))]
pub fn split_u64(bytes: &[u8]) -> Option<(u64, &[u8])>
    ensures { MatchOption result (length bytes.now < 8) (λ p. Splits 8 u64_of bytes.now p.0 p.1.now) }
{
    if bytes.len() < 8 {
        return None;
    }
    let (front, rest) = bytes.split_at(8);
    let number = u64::from_be_bytes([
        front[0], front[1], front[2], front[3], front[4], front[5], front[6], front[7],
    ]);
    Some((number, rest))
}
