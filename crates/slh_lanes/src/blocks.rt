// Blocks of bytes, a block a lane, and the states that they lead to.

ghost use Rattle.std.specs.Prelude.{◌≡◌, ◌<◌, ◌≤◌, ◌+◌, ◌*◌, ℕ, [], length, slice_index, slice_index_or};
ghost use Rattle.sha2.specs.Sha256.{compress, digest_bytes, first_words, initial_hash_256, word_at};
ghost use Rattle.slh_lanes.specs.Lanes.{lane};

use crate::compression::compress;
use std::simd::prelude::*;

// The initial hash value (FIPS 180-4 section 5.3.3).
const INITIAL: [u32; 8] = [
    0x6a09e667, 0xbb67ae85, 0x3c6ef372, 0xa54ff53a, 0x510e527f, 0x9b05688c, 0x1f83d9ab, 0x5be0cd19,
];

/// The word whose first byte is at `i` (FIPS 180-4 section 3.1).
pub fn load_be(block: &[u8], i: usize) -> u32
    requires { i + 4 ≤ length block.now }
    ensures { result ≡ word_at block.now i }
{
    u32::from_be_bytes([block[i], block[i + 1], block[i + 2], block[i + 3]])
}

// Word `k` of each block.
#[inline(always)]
fn words_at<const N: usize>(blocks: &[[u8; 64]; N], k: usize) -> Simd<u32, N>
    requires { k < 16 }
    ensures { (i : ℕ) → i < N → slice_index result i ≡ word_at (slice_index_or blocks.now i []) (4 * k) }
{
    let mut words = [0u32; N];
    'lanes: for i in 0..N {
        words[i] = load_be(&blocks[i], 4 * k);
    }
    Simd::from_array(words)
}

// The words of each block, a block a lane.
#[inline(always)]
fn load<const N: usize>(w: &mut [Simd<u32, N>; 16], blocks: &[[u8; 64]; N])
    ensures { (i : ℕ) → i < N → lane w.new i ≡ first_words (slice_index_or blocks.now i []) 16 }
{
    'words: for k in 0..16 {
        w[k] = words_at(blocks, k);
    }
}

#[inline(always)]
fn lane_of(x: u32x8, i: usize) -> u32
    requires { i < 8 }
    ensures { result ≡ slice_index x i }
{
    x[i]
}

/// The first four words of lane `i`, as bytes.
#[inline(always)]
pub fn front(state: &[u32x8; 8], i: usize) -> [u8; 16]
    requires { i < 8 }
    ensures { result ≡ digest_bytes (lane state.now i) 4 }
{
    let a = lane_of(state[0], i).to_be_bytes();
    let b = lane_of(state[1], i).to_be_bytes();
    let c = lane_of(state[2], i).to_be_bytes();
    let d = lane_of(state[3], i).to_be_bytes();
    [
        a[0], a[1], a[2], a[3], b[0], b[1], b[2], b[3], c[0], c[1], c[2], c[3], d[0], d[1], d[2],
        d[3],
    ]
}

/// Writes one state to each lane.
#[inline(always)]
pub fn spread(state: &mut [u32x8; 8], from: &[u32; 8])
    ensures { (i : ℕ) → i < 8 → lane state.new i ≡ from.now }
{
    'words: for k in 0..8 {
        state[k] = u32x8::splat(from[k]);
    }
}

// The state after a block in each lane, from the state `from`.
#[inline(always)]
fn after_blocks(from: &[u32; 8], blocks: &[[u8; 64]; 8]) -> [u32x8; 8]
    ensures { (i : ℕ) → i < 8
        → lane result i ≡ compress from.now (slice_index_or blocks.now i []) }
{
    let mut state = [u32x8::splat(0); 8];
    let mut w = [u32x8::splat(0); 16];
    spread(&mut state, from);
    load(&mut w, blocks);
    compress(&mut state, &w);
    state
}

/// The first 16 bytes of the hash that a last block in each lane leads to, from the state `from`.
pub fn fronts(from: &[u32; 8], blocks: &[[u8; 64]; 8]) -> [[u8; 16]; 8]
    ensures { (i : ℕ) → i < 8 → slice_index_or result i []
        ≡ digest_bytes (compress from.now (slice_index_or blocks.now i [])) 4 }
{
    let state = after_blocks(from, blocks);
    let mut out = [[0u8; 16]; 8];
    'lanes: for i in 0..8 {
        out[i] = front(&state, i);
    }
    out
}

/// The state after the first block of a message.
pub fn first_state(block: &[u8; 64]) -> [u32; 8]
    ensures { result ≡ compress initial_hash_256 block.now }
{
    let state = after_blocks(&INITIAL, &[*block; 8]);
    [
        lane_of(state[0], 0),
        lane_of(state[1], 0),
        lane_of(state[2], 0),
        lane_of(state[3], 0),
        lane_of(state[4], 0),
        lane_of(state[5], 0),
        lane_of(state[6], 0),
        lane_of(state[7], 0),
    ]
}
