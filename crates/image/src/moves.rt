// Images moved to version 3 and back (W-209).
ghost use Rattle.std.specs.Prelude.{◌≡◌, ◌+◌, ◌*◌, ◌≤◌, ◌<◌, length};
ghost use Rattle.std.specs.Prelude.{Ok};
ghost use Rattle.table.specs.Memory.{row, each_row};
ghost use Rattle.field.specs.Bytes.{overlay};
ghost use Rattle.block.specs.Block.{block_size, body_size};
ghost use Rattle.image.specs.Shape.{page_rows, pages_for, blocks_for};
ghost use Rattle.image.specs.Header.{header_of};
ghost use Rattle.image.specs.Save.{Sizes, saving};
ghost use Rattle.image.specs.Restore.{rows_of, verdict_of};
ghost use Rattle.image.specs.Moves.{used_in, wanted_by, version_after, along, move_of, known_in, lost_of};
ghost use Rattle.image.specs.declared.Way.TheVariants.{Forward, Back};

use crate::pages::Source;
use crate::rows::Pages;
use crate::{Header, Refusal, Wanted, Way, each_row, facts, judge, pages};
use row::rules;

// So many rows stand in page k.
fn used_in(rows: usize, k: usize) -> usize
    requires { k * page_rows ≤ rows }
    ensures { result ≡ used_in rows k }
{
    let left = rows - k * crate::PAGE_ROWS;
    if crate::PAGE_ROWS <= left {
        return crate::PAGE_ROWS;
    }
    left
}

// An accepted image on its way, with its header and the version that it gets.
#[derive(Clone, Copy)]
struct Moving<'a> {
    image: &'a [u8],
    header: Header,
    way: Way,
    version: u16,
    ghost judged: { verdict_of image.now ≡ Ok tt },
    ghost header_is: { header ≡ header_of image.now },
    ghost sizes: { Sizes header (each_row (along way) header.board.rows (rows_of image.now)) },
}

impl Source for Moving<'_> {
    ghost use Rattle.image.specs.Held.{moved_in};

    ghost header = { λ m. m.header };

    ghost rows = { moved_in };

    ghost version = { λ m. m.version };

    ghost sizes = { λ m. m.sizes };

    // The header of its own struct.
    fn header(&self) -> Header {
        self.header
    }

    fn version(&self) -> u16 {
        self.version
    }

    // A page of the image, with its rows moved.
    fn put_page(&self, out: &mut [u8], at: usize, k: usize) {
        field::copy(
            self.image,
            pages::FIRST_PAGE + k * block::BLOCK_SIZE,
            block::BODY_SIZE,
            out,
            at,
        );
        let used = used_in(self.header.board.rows, k);
        let to = at + block::BODY_SIZE;
        each_row::all(&mut out[at..to], self.way, used);
    }
}

// The rules of a move by its way: two fixed answers each, and no `From`, since neither is another spelling of the way.
impl Way {
    fn wanted(self) -> Wanted
        ensures { result ≡ wanted_by self }
    {
        match self {
            Way::Forward => Wanted::Older,
            Way::Back => Wanted::Newest,
        }
    }

    fn version_after(self, rows: usize) -> u16
        ensures { result ≡ version_after self rows }
    {
        match self {
            Way::Forward => rules::NEWEST,
            Way::Back => pages::old_version(rows),
        }
    }
}

fn move_image(image: &[u8], out: &mut [u8], way: Way) -> Result<usize, Refusal>
    ensures { saving result out.new ≡ move_of way image.now out.old }
{
    judge::judge(image, way.wanted())?;
    let size = image.len();
    if out.len() < size {
        return Err(Refusal::ShortOutput);
    }
    let header = facts::read(image);
    let moving = Moving {
        image,
        header,
        way,
        version: way.version_after(header.board.rows),
    };
    moving.put_blocks(out, size / block::BLOCK_SIZE);
    Ok(size)
}

// An image of version 1 or 2 as version 3, to the front of `out`. This and `back` are two names of one function, as C's calls are.
pub fn forward(image: &[u8], out: &mut [u8]) -> Result<usize, Refusal>
    ensures { saving result out.new ≡ move_of Forward image.now out.old }
{
    move_image(image, out, Way::Forward)
}

// An image of version 3 as version 1 or 2 by its rows, to the front of `out`.
pub fn back(image: &[u8], out: &mut [u8]) -> Result<usize, Refusal>
    ensures { saving result out.new ≡ move_of Back image.now out.old }
{
    move_image(image, out, Way::Back)
}

// How many times of seen sides are known in the rows of an image; `used` counts rows, and is no length of the image.
fn known_in(image: &[u8], used: usize) -> usize
    requires { (verdict_of image.now ≡ Ok tt) × (used ≡ (header_of image.now).board.rows) }
    ensures { result ≡ known_in used (rows_of image.now) }
{
    let slots = Pages {
        bytes: image,
        base: pages::FIRST_PAGE,
        stride: block::BLOCK_SIZE,
        rows: used,
    };
    let mut total = 0;
    for k in 0..used {
        total += row::moves::known_times(slots.row(k));
    }
    total
}

// How many times a move back of the image loses. A move that is refused loses none (`lost_of`), so that this can't fail, and gives no Result.
pub fn lost(image: &[u8]) -> usize
    ensures { result ≡ lost_of image.now }
{
    match judge::judge(image, Wanted::Newest) {
        Ok(()) => {
            let header = facts::read(image);
            known_in(image, header.board.rows)
        }
        Err(_) => 0,
    }
}
