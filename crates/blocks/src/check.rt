// The check of a block.
ghost use Rattle.std.specs.Prelude.{◌≡◌, take};
ghost use Rattle.blocks.specs.Writing.{check_sum};

// The bytes of a block before its check.
pub const BODY_BYTES: usize = 508;

// The sum that belongs in a block's check: over its first 508 bytes, each byte times its place counted from 1.
pub fn check_sum(block: &[u8]) -> u32
    ensures { result ≡ check_sum (take 508 block.now) }
{
    let body = &block[..BODY_BYTES.min(block.len())];
    let mut sum = 0;
    for (index, byte) in body.iter().enumerate() {
        sum += u32::from(*byte) * (index as u32 + 1);
    }
    sum
}
