// Bit-packed rows of fields: a cursor that reads or writes one row after another, and a row that gives one field after another, each starting at the
// bit where the last ended.
#![tactic(auto)]

ghost use Rattle.std.specs.Prelude.{◌≡◌, ◌+◌, ◌-◌, ◌*◌, ◌/◌, ◌%◌, ◌^◌, ◌≤◌, ◌<◌, length};
ghost use Rattle.bits.specs.Bits.{field, bits_of};
ghost use Rattle.bits.specs.PutBits.{put_bits};

// The bit of a file at which the next row of fields starts.
#[derive(Clone, Copy)]
pub struct Cursor {
    pub at: usize,
}

// The bits of a row as a number, and how many of them, at its end, are not taken yet: the next field starts there.
#[derive(Clone, Copy)]
pub struct Row {
    pub bits: u64,
    pub left: usize,
}

// As many bits as eight bytes hold, whatever bit of the first they start at.
const WITHIN_EIGHT: usize = 57;

// The field of `width` bits at bit `at`, all within one byte.
pub fn piece(file: &[u8], at: usize, width: u32) -> u64
    requires at_bound { at < 8 * length file.now }
    requires le_width { (1 ≤ width) × (at % 8 + width ≤ 8) }
    ensures { result ≡ field file.now at width }
{
    let behind = 8 - (at % 8) as u32 - width;
    (u64::from(file[at / 8]) >> behind) % (1 << width)
}

// The `width` low bits of `bits` put at bit `at`, all within one byte: the earlier bits of the byte stay, and the later ones are zero.
fn put_piece(out: &mut [u8], at: usize, width: u32, bits: u64)
    requires at_bound { at < 8 * length out.old }
    requires le_width { (1 ≤ width) × (at % 8 + width ≤ 8) }
    ensures { out.new ≡ put_bits out.old at (bits_of width bits) }
{
    let low = 8 - (at % 8) as u32 - width;
    let kept = u64::from(out[at / 8]) >> low >> width;
    out[at / 8] = (((kept << width) + bits % (1 << width)) << low) as u8;
}

// The `width` low bits of `bits` put from byte `first` on: whole bytes, and then the rest.
fn put_bytes(out: &mut [u8], first: usize, width: usize, bits: u64)
    requires width_bound { width ≤ 64 }
    requires width_bound_2 { 8 * first + width ≤ 8 * length out.old }
    requires width_bound_3 { 8 * first + width < 2 ^ 64 }
    ensures { out.new ≡ put_bits out.old (8 * first) (bits_of width bits) }
{
    let whole = width / 8;
    for k in 0..whole {
        let left = width - 8 * (k + 1);
        put_piece(out, 8 * (first + k), 8, bits >> left as u32);
    }
    let left = width % 8;
    if left != 0 {
        put_piece(out, 8 * (first + whole), left as u32, bits);
    }
}

// The bits of `high` with the `width` low bits of `low` behind them.
pub fn join(high: u64, width: usize, low: u32) -> u64
    requires width_bound { width ≤ 32 }
    requires high_bound { high < 2 ^ (64 - width) }
    ensures { result ≡ high * 2 ^ width + low % 2 ^ width }
{
    let by = width as u32;
    (high << by) + u64::from(low) % (1 << by)
}

// The four bytes from byte `k` on as one number.
fn four_bytes(file: &[u8], k: usize) -> u32
    requires { k + 3 < length file.now }
    ensures { result ≡ field file.now (8 * k) 32 }
{
    u32::from_be_bytes([file[k], file[k + 1], file[k + 2], file[k + 3]])
}

// The eight bytes from byte `k` on as one number, which the compiler loads at once.
fn eight_bytes(file: &[u8], k: usize) -> u64
    requires { k + 7 < length file.now }
    ensures { result ≡ field file.now (8 * k) 64 }
{
    u64::from_be_bytes([
        file[k],
        file[k + 1],
        file[k + 2],
        file[k + 3],
        file[k + 4],
        file[k + 5],
        file[k + 6],
        file[k + 7],
    ])
}

// The field of `width` bits at bit `at`: out of the eight bytes from its first on, and of the byte behind them where it reaches that far.
fn field_at(file: &[u8], at: usize, width: usize) -> u64
    requires at_in_bounds { at / 8 + 7 < length file.now }
    requires le_width { (1 ≤ width) × (width ≤ 64) }
    requires width_bound { at + width ≤ 8 * length file.now }
    requires width_bound_2 { at + width < 2 ^ 64 }
    ensures { result ≡ field file.now at width }
{
    let front = (eight_bytes(file, at / 8) << (at % 8) as u32) >> (64 - width) as u32;
    let end = at % 8 + width;
    if end <= 64 {
        return front;
    }
    front + (u64::from(file[at / 8 + 8]) >> (72 - end) as u32)
}

impl Row {
    // The first four bytes of a file as a row.
    pub fn first(file: &[u8]) -> Row
        requires { 4 ≤ length file.now }
        ensures { (result.bits ≡ field file.now 0 32) × (result.left ≡ 32) }
    {
        Row {
            bits: u64::from(four_bytes(file, 0)),
            left: 32,
        }
    }

    // The field of `width` bits where the row stands, which moves behind it.
    pub fn take(&mut self, width: usize) -> u32
        requires le_width { (1 ≤ width) × (width ≤ 32) }
        requires width_le_left { (width ≤ self.old.left) × (self.old.left ≤ 64) }
        ensures value { result ≡ self.old.bits / 2 ^ (self.old.left - width) % 2 ^ width }
        ensures moved { (self.new.bits ≡ self.old.bits) × (self.new.left ≡ self.old.left - width) }
    {
        self.left -= width;
        ((self.bits >> self.left as u32) % (1 << width as u32)) as u32
    }
}

impl Cursor {
    // The cursor at the first bit.
    pub fn new() -> Cursor
        ensures { result.at ≡ 0 }
    {
        Cursor { at: 0 }
    }

    // The row of `width` bits at the cursor, which moves behind it. There are eight bytes from the cursor's on.
    pub fn take(&mut self, file: &[u8], width: usize) -> Row
        requires at_in_bounds { self.old.at / 8 + 7 < length file.now }
        requires le_width { (1 ≤ width) × (width ≤ 64) }
        requires width_bound { self.old.at + width ≤ 8 * length file.now }
        requires width_bound_2 { self.old.at + width < 2 ^ 64 }
        ensures row { (result.bits ≡ field file.now self.old.at width) × (result.left ≡ width) }
        ensures moved { self.new.at ≡ self.old.at + width }
    {
        let bits = field_at(file, self.at, width);
        self.at += width;
        Row { bits, left: width }
    }

    // The row of `width` bits at the cursor, which moves behind it, where there may be fewer than eight bytes from the cursor's on: the row is taken out of
    // eight bytes together with bits before it, which count as taken already.
    pub fn take_near_end(&mut self, file: &[u8], width: usize) -> Row
        requires le_width { (1 ≤ width) × (width ≤ 57) }
        requires bound { 57 ≤ self.old.at + width }
        requires width_bound { self.old.at + width ≤ 8 * length file.now }
        requires width_bound_2 { self.old.at + width < 2 ^ 64 }
        ensures row { (result.bits ≡ field file.now (self.old.at + width - 57) 57) × (result.left ≡ width) }
        ensures moved { self.new.at ≡ self.old.at + width }
    {
        self.at += width;
        let bits = field_at(file, self.at - WITHIN_EIGHT, WITHIN_EIGHT);
        Row { bits, left: width }
    }

    // The `width` bits of `value` put at the cursor, which moves behind them.
    pub fn put(&mut self, out: &mut [u8], width: usize, value: u64)
        requires width_bound { width ≤ 64 }
        requires width_bound_2 { self.old.at + width ≤ 8 * length out.old }
        requires width_bound_3 { self.old.at + width < 2 ^ 64 }
        ensures moved { self.new.at ≡ self.old.at + width }
        ensures bits { out.new ≡ put_bits out.old self.old.at (bits_of width value) }
    {
        let start = self.at;
        let first = width.min(8 - start % 8);
        if first == 0 {
            return;
        }
        let left = width - first;
        put_piece(out, start, first as u32, value >> left as u32);
        put_bytes(out, (start + first) / 8, left, value);
        self.at += width;
    }
}
