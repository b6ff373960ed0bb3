// What an image is: the lowest number of document 01's that any of its blocks deserves, or accepted.
ghost use Rattle.std.specs.Prelude.{◌≡◌, ◌*◌, ◌≤◌, ◌<◌, length};
ghost use Rattle.block.specs.Block.{block_size};
ghost use Rattle.image.specs.Shape.{most_blocks, welcome};
ghost use Rattle.image.specs.Restore.{length_keeps, checks_keep, version_of, head_keeps, heads_keep, slots_keep, contents_keep, verdict_in};

use crate::rows::Pages;
use crate::{Header, Refusal, Wanted, facts, pages};
use field::{limits, text};

fn length_keeps(image: &[u8]) -> bool
    ensures { result ≡ length_keeps image.now }
{
    let count = image.len() / block::BLOCK_SIZE;
    (image.len() % block::BLOCK_SIZE == 0) & ((1 <= count) & (count <= crate::MOST_BLOCKS))
}

fn checks_keep(image: &[u8], count: usize) -> bool
    requires { count * block_size ≤ length image.now }
    ensures { result ≡ checks_keep image.now count }
{
    for k in 0..count {
        if !block::check_keeps(image, k * block::BLOCK_SIZE) {
            return false;
        }
    }
    true
}

impl Wanted {
    fn welcomes(self, version: u16) -> bool
        ensures { result ≡ welcome self version }
    {
        match self {
            Wanted::Any => true,
            Wanted::Older => version != row::rules::NEWEST,
            Wanted::Newest => version == row::rules::NEWEST,
        }
    }
}

// An image of so many whole blocks, with the header and the version that block 0 says.
#[derive(Clone, Copy)]
struct Blocks<'a> {
    image: &'a [u8],
    count: usize,
    header: Header,
    version: u16,
    ghost there: { count * block_size ≤ length image.now },
    ghost least: { 1 ≤ count },
    ghost few: { count ≤ most_blocks },
    ghost version_is: { version ≡ version_of image.now },
    ghost rows_small: { header.board.rows ≤ 65_535 },
}

impl Blocks<'_> {
    fn head_keeps(&self, k: usize) -> bool
        requires { k < self.now.count }
        ensures { result ≡ head_keeps self.now.image.now self.now.count self.now.header k }
    {
        let there = block::read_head(self.image, k * block::BLOCK_SIZE);
        block::same_head(
            there,
            pages::head_for(self.count, self.version, self.header.next, k),
        )
    }

    fn heads_keep(&self) -> bool
        ensures { result ≡ heads_keep self.now.image.now self.now.count self.now.header }
    {
        let h = self.header;
        let fit = limits::number_in_range(h.next) & pages::version_fits(self.version, h.board.rows);
        if !fit {
            return false;
        }
        for k in 0..self.count {
            if !self.head_keeps(k) {
                return false;
            }
        }
        true
    }

    fn slots_keep(&self) -> bool
        ensures { result ≡ slots_keep self.now.image.now self.now.count self.now.header.board.rows }
    {
        let rows = self.header.board.rows;
        if pages::blocks_for(rows) != self.count {
            return false;
        }
        let slots = Pages {
            bytes: self.image,
            base: pages::FIRST_PAGE,
            stride: block::BLOCK_SIZE,
            rows,
        };
        if !slots.keep(self.version) {
            return false;
        }
        // The slots that no row takes end where the last block's check begins.
        let spare = (self.count - 1) * block::BODY_SIZE - rows * row::ROW_SIZE;
        text::only(
            self.image,
            self.count * block::BLOCK_SIZE - 2 - spare,
            spare,
            0,
        )
    }

    fn contents_keep(&self) -> bool
        ensures { result ≡ contents_keep self.now.image.now self.now.count self.now.header }
    {
        if !facts::only_facts(self.image) {
            return false;
        }
        if !facts::keep(self.header) {
            return false;
        }
        self.slots_keep()
    }
}

// What an image is to a call that takes the versions that `wanted` names, as `verdict_in` does.
pub fn judge(image: &[u8], wanted: Wanted) -> Result<(), Refusal>
    ensures { result ≡ verdict_in wanted image.now }
{
    if !length_keeps(image) {
        return Err(Refusal::BadLength);
    }
    let count = image.len() / block::BLOCK_SIZE;
    if !checks_keep(image, count) {
        return Err(Refusal::BadCheck);
    }
    let blocks = Blocks {
        image,
        count,
        header: facts::read(image),
        version: facts::version(image),
    };
    let fit = blocks.heads_keep() & wanted.welcomes(blocks.version);
    if !fit {
        return Err(Refusal::BadHead);
    }
    if !blocks.contents_keep() {
        return Err(Refusal::BadContents);
    }
    Ok(())
}
