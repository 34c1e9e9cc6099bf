ghost use Rattle.std.specs.Prelude.{◌≡◌, ℕ, ◌+◌, ◌*◌, ◌<◌, ◌≤◌, length, replicate, slice_set};
ghost use Rattle.swap_store.specs.Blocks.{block_in, blocks_in};

/// A block of bytes that hold one after another.
pub(crate) fn block(bytes: &[u8], width: usize, at: usize) -> &[u8]
    requires { at * width + width ≤ length bytes.now }
    ensures block { result.now ≡ block_in width bytes.now at }
    ensures len { length result.now ≡ width }
{
    let start = at * width;
    &bytes[start..start + width]
}

/// Writes a block.
pub(crate) fn write_block(bytes: &mut [u8], width: usize, at: usize, block: &[u8])
    requires within { at * width + width ≤ length bytes.old }
    requires block { length block.now ≡ width }
    ensures { (blocks : ℕ) → at < blocks → length bytes.old ≡ blocks * width
        → blocks_in blocks width bytes.new
        ≡ slice_set (blocks_in blocks width bytes.old) at block.now }
{
    let start = at * width;
    bytes[start..start + width].copy_from_slice(block);
}

/// Makes each byte of a block this one.
pub(crate) fn fill_block(bytes: &mut [u8], width: usize, at: usize, value: u8)
    requires { at * width + width ≤ length bytes.old }
    ensures { (blocks : ℕ) → at < blocks → length bytes.old ≡ blocks * width
        → blocks_in blocks width bytes.new
        ≡ slice_set (blocks_in blocks width bytes.old) at (replicate width value) }
{
    let start = at * width;
    bytes[start..start + width].fill(value);
}
