#![tactic(auto)]

// An indexed list of pairs of numbers in lent slices: the first place of a pair, and one pair more (specs/Pairs.antt).
// `lefts` and `rights` hold the pairs by place. Each bucket has a tree of places: `cells` holds a link for each bucket, and behind
// them two for each place. A link is a place plus 1, or 0 for none (specs/Index.antt): a word of a lent slice, which an Option does not fit.

ghost use Rattle.std.specs.Prelude.{◌≡◌, suc};
ghost use Rattle.pairs.specs.Pairs.{place_of};
ghost use Rattle.pairs.specs.Index.{hash_of, Room, Indexed, Searched, Pushed};
ghost use Rattle.pairs.specs.Lent.{SameSlices, RoomIn, IndexedIn, PushedIn};

// The number of buckets.
pub const BUCKETS: usize = 4096;

// The slices of an index. How many pairs they hold is said at each call: of a table it is the number of its entries, which callers have.
// No ghost field says that they are indexed: until `clear` they are scratch, which may hold anything.
#[derive(Drop)]
pub struct Index<'a> {
    pub lefts: &'a mut [u32],
    pub rights: &'a mut [u32],
    pub cells: &'a mut [u32],
}

// The slices of an index, lent to be read: they may be lent elsewhere too, and one slice as two of them.
#[derive(Clone, Copy)]
pub struct Lookup<'a> {
    pub lefts: &'a [u32],
    pub rights: &'a [u32],
    pub cells: &'a [u32],
}

impl Lookup<'_> {
    // The first place of (a, b) among the first `count` pairs, or else `count`.
    pub fn find(self, count: usize, a: u32, b: u32) -> usize
        requires { Indexed self.lefts.now self.rights.now self.cells.now count }
        ensures { result ≡ place_of self.entry.lefts.now self.entry.rights.now count a b }
    {
        search(self.lefts, self.rights, self.cells, count, a, b).place
    }
}

impl Index<'_> {
    // The same slices, to be read.
    pub fn lookup(&self) -> Lookup<'_>
        ensures lefts { result.lefts.now ≡ self.now.lefts.now }
        ensures rights { result.rights.now ≡ self.now.rights.now }
        ensures cells { result.cells.now ≡ self.now.cells.now }
    {
        Lookup {
            lefts: self.lefts,
            rights: self.rights,
            cells: self.cells,
        }
    }

    // The first place of (a, b) among the first `count` pairs, or else `count`.
    pub fn find(&self, count: usize, a: u32, b: u32) -> usize
        requires { IndexedIn self.now count }
        ensures { result ≡ place_of self.now.lefts.now self.now.rights.now count a b }
    {
        self.lookup().find(count, a, b)
    }

    // Puts (a, b) at place `count`, and answers its first place: an older one, or else `count`, to which a link goes then.
    pub fn push(&mut self, count: usize, a: u32, b: u32) -> usize
        requires indexed { IndexedIn self.old count }
        requires room { RoomIn self.old (suc count) }
        ensures pushed { PushedIn self.old self.new count a b result }
        ensures same_slices { SameSlices self.old self.new }
    {
        push(self.lefts, self.rights, self.cells, count, a, b)
    }

    // Forgets all pairs.
    pub fn clear(&mut self)
        requires { RoomIn self.old 0 }
        ensures indexed { IndexedIn self.new 0 }
        ensures same_slices { SameSlices self.old self.new }
    {
        layout::clearing::clear(self.cells, BUCKETS);
    }
}

// What a search gives: a place, and the cell at which it ended.
#[derive(Clone, Copy)]
struct Found {
    place: usize,
    cell: usize,
}

// The hash of the pair (a, b).
#[tactic(auto, unfolding(crate::specs::Index::hash_of))]
fn hash(a: u32, b: u32) -> u64
    ensures { result ≡ hash_of a b }
{
    let low = u64::from(a) * 16384 + u64::from(b) % 16384;
    low * 204665 % 70368744177664 + u64::from(b) / 16384 * 70368744177664
}

// The first place of (a, b) among the first `count` pairs, or else `count`, the next free place; and the cell where the way ends.
// No Option: the search yields a place either way, as document 01 has it.
fn search(lefts: &[u32], rights: &[u32], cells: &[u32], count: usize, a: u32, b: u32) -> Found
    requires { Indexed lefts.now rights.now cells.now count }
    ensures { Searched lefts.now rights.now cells.now count a b result }
{
    let mixed = hash(a, b);
    let mut way = mixed % 65536 + mixed / 268435456 * 65536;
    let mut cell = (mixed / 65536) as usize % BUCKETS;
    let place = loop {
        let link = cells[cell];
        if link == 0 {
            break count;
        }
        let at = (link - 1) as usize;
        if lefts[at] == a && rights[at] == b {
            break at;
        }
        cell = BUCKETS + 2 * at + (way % 2) as usize;
        way /= 2;
    };
    Found { place, cell }
}

// The same on the slices.
fn push(
    lefts: &mut [u32],
    rights: &mut [u32],
    cells: &mut [u32],
    count: usize,
    a: u32,
    b: u32,
) -> usize
    requires indexed { Indexed lefts.old rights.old cells.old count }
    requires room { Room lefts.old rights.old cells.old (suc count) }
    ensures { Pushed lefts.old rights.old lefts.new rights.new cells.new count a b result }
{
    let found = search(lefts, rights, cells, count, a, b);
    lefts[count] = a;
    rights[count] = b;
    let own = BUCKETS + 2 * count;
    cells[own] = 0;
    cells[own + 1] = 0;
    if found.place == count {
        cells[found.cell] = (count + 1) as u32;
    }
    found.place
}
