// A saved table moved, and what is said of it.
ghost use Rattle.std.specs.Prelude.{◌≡◌, ◌≤◌, length};
ghost use Rattle.block.specs.Block.{block_size};
ghost use Rattle.image.specs.Save.{saving};
ghost use Rattle.image.specs.Moves.{move_of};
ghost use Rattle.topmove.specs.Moving.{facts_of, outcome_of};

use image::{Way, moves};

// Where the rows in use are counted in an image.
const ROWS_AT: usize = 26;

#[derive(Clone, Copy)]
pub struct Moved {
    // So many bytes.
    pub size: usize,
    pub version: u64,
    // The rows in use.
    pub rows: u64,
    // How many times a move back has lost.
    pub lost: u64,
}

// The image as the other version has it, to the front of `out`. The promise names the way, so it is a value here and no closure.
fn save(way: Way, image: &[u8], out: &mut [u8]) -> Result<usize, image::Refusal>
    ensures { saving result out.new ≡ move_of way image.now out.old }
{
    match way {
        Way::Forward => moves::forward(image, out),
        Way::Back => moves::back(image, out),
    }
}

// What is said of a moved image: its version and rows are read off its bytes.
fn facts(image: &[u8], moved: &[u8]) -> Moved
    requires { block_size ≤ length moved.now }
    ensures { result ≡ facts_of image.now moved.now }
{
    let head = block::read_head(moved, 0);
    Moved {
        size: moved.len(),
        version: head.version as u64,
        rows: field::read::<u16>(moved, ROWS_AT) as u64,
        lost: moves::lost(image) as u64,
    }
}

// Moves an image to the front of `out`, and answers what is said of it, or the number of the refusal, which leaves `out`. The way is a value, as for `save`.
pub fn move_image(way: Way, image: &[u8], out: &mut [u8]) -> Result<Moved, u8>
    ensures said { result ≡ outcome_of way image.now (move_of way image.now out.old).answer }
    ensures written { out.new ≡ (move_of way image.now out.old).out }
{
    match save(way, image, out) {
        Ok(n) => Ok(facts(image, &out[..n])),
        Err(r) => Err(u8::from(r)),
    }
}
