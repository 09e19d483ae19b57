// Parts of a record: as many bytes as are there.
ghost use Rattle.std.specs.Prelude.{◌≡◌, ◌-◌, take, drop};

// The bytes from number a on, counted from 0.
fn behind(rec: &[u8], a: usize) -> &[u8]
    ensures { result.now ≡ drop a rec.now }
{
    if rec.len() < a {
        return &rec[0..0];
    }
    &rec[a..]
}

// The first n bytes.
fn front(rec: &[u8], n: usize) -> &[u8]
    ensures { result.now ≡ take n rec.now }
{
    if rec.len() < n {
        return rec;
    }
    &rec[0..n]
}

// The n columns from the first on, counted from 1.
pub fn piece(rec: &[u8], first: usize, n: usize) -> &[u8]
    ensures { result.now ≡ take n (drop (first - 1) rec.now) }
{
    if first == 0 {
        return front(rec, n);
    }
    front(behind(rec, first - 1), n)
}
