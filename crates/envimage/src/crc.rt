//! The CRC-32 of zlib, 16 bytes at a time.
ghost use Rattle.std.specs.Prelude.{◌≡◌, ◌+◌, ◌≤◌, fold};
ghost use Rattle.envimage.specs.Crc.{crc, after_byte, register_after, after_zeros};

use crate::crc_tables::TABLES;

// The register after one more byte.
#[tactic(auto, using(crate::proofs::TableLemmas::by_table))]
fn after_byte(register: u32, byte: u8) -> u32
    ensures { result ≡ after_byte register byte }
{
    let low = (register ^ u32::from(byte)) & 0xff;
    TABLES[0][low as usize] ^ (register >> 8)
}

// The register after four zero bytes and this many more.
#[tactic(auto, using(crate::proofs::BlockLemmas::by_tables))]
fn after_word(register: u32, zeros: usize) -> u32
    requires { zeros ≤ 12 }
    ensures { result ≡ after_zeros (zeros + 4) register }
{
    TABLES[zeros][(register >> 24) as usize]
        ^ TABLES[zeros + 1][(register >> 16 & 0xff) as usize]
        ^ TABLES[zeros + 2][(register >> 8 & 0xff) as usize]
        ^ TABLES[zeros + 3][(register & 0xff) as usize]
}

// The register after 16 more bytes. What needs the register comes last, since it is ready last.
#[tactic(auto, using(crate::proofs::BlockLemmas::by_block))]
fn after_block(register: u32, block: &[u8; 16]) -> u32
    ensures { result ≡ register_after register block.now }
{
    let [a, b, c, d, e, f, g, h, i, j, k, l, m, n, o, p] = *block;
    after_word(u32::from_le_bytes([m, n, o, p]), 0)
        ^ after_word(u32::from_le_bytes([i, j, k, l]), 4)
        ^ after_word(u32::from_le_bytes([e, f, g, h]), 8)
        ^ after_word(register ^ u32::from_le_bytes([a, b, c, d]), 12)
}

// The register after these blocks.
fn after_blocks(register: u32, blocks: &[[u8; 16]]) -> u32
    ensures { result ≡ fold register_after register blocks.now }
{
    blocks
        .iter()
        .fold(register, |register, block| after_block(register, block))
}

// The register after these bytes, one by one.
fn after_bytes(register: u32, bytes: &[u8]) -> u32
    ensures { result ≡ fold after_byte register bytes.now }
{
    bytes
        .iter()
        .fold(register, |register, byte| after_byte(register, *byte))
}

/// The CRC-32 of zlib over the bytes: reflected polynomial edb88320, all bits set at the start and
/// flipped at the end. For `123456789` it is cbf43926. Takes no memory.
#[tactic(auto, using(crate::proofs::CrcLemmas::fold_parts))]
pub fn crc32(bytes: &[u8]) -> u32
    ensures { result ≡ crc bytes.now }
{
    let (blocks, rest) = bytes.as_chunks::<16>();
    after_bytes(after_blocks(u32::MAX, blocks), rest) ^ u32::MAX
}
