// The bounds of an entry in words.
use rule_tables::ANY;

// A number of tenths, with its point.
fn print_tenths(n: usize) {
    io::print_decimal(1, (n / 10) as u64);
    io::write_all(1, b".");
    io::print_decimal(1, (n % 10) as u64);
}

// The bounds of decimals, in tenths; with a sign the lowest is below zero.
fn print_decimals(kind: usize, low: usize, high: usize) {
    if kind == 3 {
        io::write_all(1, b"-");
    }
    print_tenths(low);
    io::write_all(1, b" to ");
    print_tenths(high);
    io::write_all(1, b" ");
}

// The bounds of whole numbers with a sign.
fn print_wholes(low: usize, high: usize) {
    io::write_all(1, b"-");
    io::print_decimal(1, low as u64);
    io::write_all(1, b" to ");
    io::print_decimal(1, high as u64);
    io::write_all(1, b" ");
}

// Two bytes, and what stands between them.
fn print_bytes(low: usize, between: &[u8], high: usize) {
    let first = [(low % 256) as u8];
    let last = [(high % 256) as u8];
    io::write_all(1, &first);
    io::write_all(1, between);
    io::write_all(1, &last);
}

// What an entry bounds, by its kind: nothing where it has no bounds of its own.
pub fn print_bounds(kind: usize, low: usize, high: usize) {
    if kind == 8 {
        print_bytes(low, b" to ", high);
        return;
    }
    if kind == 9 {
        print_bytes(low, b" or ", high);
        return;
    }
    if kind == 1 {
        if low == 1 {
            io::write_all(1, b"above 0");
        }
        return;
    }
    if high == 0 {
        return;
    }
    if high == ANY {
        io::write_all(1, b"any that its columns hold, in ");
        return;
    }
    if kind == 4 {
        print_wholes(low, high);
        return;
    }
    print_decimals(kind, low, high);
}
