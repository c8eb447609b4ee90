// The bytes of a slice, stored in a destination as far as it has room.
#![tactic(auto)]

ghost use Rattle.std.specs.Prelude.{◌≡◌, ◌+◌, ◌≤◌, length};
ghost use Rattle.stores.specs.Store.{cap, puts};

// The bytes of a slice, which have room; with no test on the way many are stored at once.
// Kept: `copy_from_slice` needs `memmove`, which the C library did not ask for.
fn copy(dst: &mut [u8], o: usize, w: &[u8]) -> usize
    requires small { o + length w.now ≤ cap }
    requires fits { o + length w.now ≤ length dst.old }
    ensures { (result, dst.new) ≡ puts w.now dst.old o }
{
    for i in 0..w.len() {
        dst[o + i] = w[i];
    }
    o + w.len()
}

// The bytes of a slice; where there is no room for the first, none of them is looked at.
pub fn copied(dst: &mut [u8], o: usize, w: &[u8]) -> usize
    ensures { (result, dst.new) ≡ puts w.now dst.old o }
{
    if dst.len() <= o {
        return stores::add(o, w.len());
    }
    if stores::has_room(dst.len(), o, w.len()) {
        return copy(dst, o, w);
    }
    let mut p = o;
    for b in w {
        p = stores::put(dst, p, *b);
    }
    p
}
