// The K-of-N hit window and the fixed-size position trail.
#![tactic(auto)]

ghost use Rattle.std.specs.Prelude.{◌≡◌, min, ◌+◌, ◌≤◌, ◌<◌, length, ℕ};
ghost use Rattle.std.specs.Float.{binary64};
ghost use Rattle.std.proofs.Math.Seq.{paste};
ghost use Rattle.refusal.specs.Order.{judged_by, refusal};
ghost use Rattle.fmath.specs.Norm.{dist};
ghost use Rattle.window.specs.Rule.{hits_in, slot_back, sample_back, net, path};
ghost use Rattle.window.specs.Answer.{mask_of, out_of_size, unfit, trail_reasons, push_reasons, number_after, net_of, path_of, count_of, emptiness_of};
ghost use Rattle.window.specs.Of.{empty_window, pushed_of, new_trail, recorded_of, push_of, clear_of};

use refusal::Refusal;

// The last pushes, a bit each, the newest lowest.
#[derive(Clone, Copy)]
pub struct Window {
    pub bits: u64,
}

// A ring of the last 32 positions, 8 numbers to a slot: head is the slot that is written next, len the samples held.
#[derive(Clone, Copy)]
pub struct Trail {
    pub buf: [f64; 256],
    pub head: u8,
    pub len: u8,
}

// The refusal's number, or 0, and the trail, which is as it was where it is refused.
#[derive(Clone, Copy)]
pub struct Recorded {
    pub number: u8,
    pub trail: Trail,
}

// The mask of a window of n pushes, 2^n - 1; a length outside 1..63 is refused.
pub fn mask(n: u8) -> Result<u64, Refusal>
    ensures { result ≡ mask_of n }
{
    if (n < 1) | (63 < n) {
        return Err(Refusal::of(Refusal::SIZE));
    }
    Ok((1u64 << n) - 1)
}

impl Window {
    // No push yet.
    pub fn new() -> Window
        ensures { result ≡ empty_window }
    {
        Window { bits: 0 }
    }

    // The bits move up by one, the top one drops out, hit comes in lowest, and the mask is put on.
    pub fn pushed(self, hit: bool, mask: u64) -> Window
        ensures { result ≡ pushed_of self hit mask }
    {
        let up = (self.bits % 9223372036854775808) * 2;
        Window {
            bits: (up + hit as u64) & mask,
        }
    }

    // How many of the bits are set.
    pub fn hits(self) -> u8
        ensures { result ≡ hits_in self.bits }
    {
        u64::count_ones(self.bits) as u8
    }

    // As new.
    pub fn clear(mut self) -> Window
        ensures { result ≡ empty_window }
    {
        self.bits = 0;
        self
    }

    // `pushed`, in place.
    pub fn push(&mut self, hit: bool, mask: u64)
        ensures { self.new ≡ pushed_of self.old hit mask }
    {
        let old = *self;
        let new = old.pushed(hit, mask);
        *self = new;
    }
}

// The ring's numbers with the first n of p written from a place on.
fn stored(buf: [f64; 256], at: usize, p: &[f64], n: usize) -> [f64; 256]
    requires { (at + n ≤ 256) × (n ≤ length p.now) }
    ensures { result ≡ paste buf at p.now n }
{
    let mut all = buf;
    all[at..at + n].copy_from_slice(&p[..n]);
    all
}

// The slot of the sample k steps back from the newest.
fn slot_back(head: u8, k: usize) -> usize
    requires { k < 32 }
    ensures { result ≡ slot_back head k }
{
    (head as usize + 31 - k) % 32
}

// The distance of the samples j and k steps back, over the first d coordinates, at most 8.
fn between(buf: &[f64], head: u8, j: usize, k: usize, d: usize) -> f64
    requires { (256 ≤ length buf.now) × ((j < 32) × (k < 32)) }
    ensures { result ≡ (dist binary64 (sample_back buf.now head j) (sample_back buf.now head k) (min d 8)).value }
{
    let a = slot_back(head, j) * 8;
    let b = slot_back(head, k) * 8;
    let a_end = a + 8;
    let b_end = b + 8;
    fmath::distance(&buf[a..a_end], &buf[b..b_end], fmath::fewer(d, 8))
}

// The straight line across the last w samples.
fn net_of(buf: &[f64], head: u8, len: u8, d: usize, w: usize) -> f64
    requires { 256 ≤ length buf.now }
    ensures { result ≡ (net binary64 buf.now head len d w).value }
{
    if (w == 0) | (32 < w) | ((len as usize) < w) {
        return 0.0;
    }
    between(buf, head, 0, w - 1, d)
}

// The sum of the steps between the last w samples, oldest to newest.
fn path_of(buf: &[f64], head: u8, len: u8, d: usize, w: usize) -> f64
    requires { 256 ≤ length buf.now }
    ensures { result ≡ (path binary64 buf.now head len d w).value }
{
    if (w < 2) | (32 < w) | ((len as usize) < w) {
        return 0.0;
    }
    let n = w - 1;
    let mut acc = 0.0;
    for j in 0..n {
        acc += between(buf, head, n - j, n - j - 1, d);
    }
    acc
}

// A number after what is judged before it, and by 13 where it is not finite.
fn number_after(judged: Result<(), Refusal>, x: f64) -> Result<f64, Refusal>
    ensures { (n : ℕ) → judged ≡ judged_by n → result ≡ number_after n x }
{
    judged?;
    Refusal::when(Refusal::COMPUTED, !fmath::finite(x))?;
    Ok(x)
}

impl Trail {
    // No sample yet.
    pub fn new() -> Trail
        ensures { result ≡ new_trail }
    {
        Trail {
            buf: [0.0; 256],
            head: 0,
            len: 0,
        }
    }

    // Whether the head is over 31 or the count over 32.
    pub fn out_of_size(self) -> bool
        ensures { result ≡ out_of_size self }
    {
        (31 < self.head) | (32 < self.len)
    }

    // Whether some of the 256 numbers, held or not, is not finite.
    pub fn unfit(self) -> bool
        ensures { result ≡ unfit self }
    {
        let buf = self.buf;
        !fmath::all_finite(&buf, 256)
    }

    // Why a trail is refused: by 1 for its head and its count, by 12 for its numbers.
    fn trail_refusal(self) -> Result<(), Refusal>
        ensures { result ≡ judged_by (refusal (trail_reasons self)) }
    {
        Refusal::when(Refusal::SIZE, self.out_of_size())?;
        Refusal::when(Refusal::NOT_FINITE, self.unfit())
    }

    // The same with the numbers of a lent position.
    fn push_refusal(self, p: &[f64]) -> Result<(), Refusal>
        ensures { result ≡ judged_by (refusal (push_reasons self p.now)) }
    {
        self.trail_refusal()?;
        let fit = fmath::all_finite(p, p.len());
        Refusal::when(Refusal::NOT_FINITE, !fit)
    }

    // The position as the newest sample, in the slot at head; coordinates past those pushed keep what the slot held.
    fn recorded(self, p: &[f64], d: usize) -> Trail
        requires { (self.head < 32) × (self.len ≤ 32) }
        ensures { result ≡ recorded_of self p.now d }
    {
        let n = fmath::fewer(fmath::fewer(d, 8), p.len());
        let old = self.buf;
        let buf = stored(old, (self.head as usize) * 8, p, n);
        let head = (self.head + 1) % 32;
        if self.len < 32 {
            return Trail {
                buf,
                head,
                len: self.len + 1,
            };
        }
        Trail { buf, head, len: 32 }
    }

    // Records the first d numbers of p, at most 8 and as many as it has, as the newest sample.
    pub fn push(self, p: &[f64], d: usize) -> Recorded
        ensures { result ≡ push_of self p.now d }
    {
        let number = Refusal::number_of(self.push_refusal(p));
        if number != 0 {
            return Recorded {
                number,
                trail: self,
            };
        }
        let trail = self.recorded(p, d);
        Recorded { number: 0, trail }
    }

    // The plain number of `net`, for a caller that has judged the trail. It is finite exactly where each number on the way to it is.
    pub fn displacement(self, d: usize, w: usize) -> f64
        ensures { result ≡ (net binary64 self.buf self.head self.len d w).value }
    {
        let buf = self.buf;
        net_of(&buf, self.head, self.len, d, w)
    }

    // The plain number of `path`, likewise.
    pub fn travelled(self, d: usize, w: usize) -> f64
        ensures { result ≡ (path binary64 self.buf self.head self.len d w).value }
    {
        let buf = self.buf;
        path_of(&buf, self.head, self.len, d, w)
    }

    // The distance of the newest sample and the one w - 1 before it; 0.0 where w is 0, over 32 or more than the samples held.
    pub fn net(self, d: usize, w: usize) -> Result<f64, Refusal>
        ensures { result ≡ net_of binary64 self d w }
    {
        let judged = self.trail_refusal();
        number_after(judged, self.displacement(d, w))
    }

    // The length of the way through the last w samples; 0.0 where w is below 2, over 32 or more than the samples held.
    pub fn path(self, d: usize, w: usize) -> Result<f64, Refusal>
        ensures { result ≡ path_of binary64 self d w }
    {
        let judged = self.trail_refusal();
        number_after(judged, self.travelled(d, w))
    }

    // No sample is held; the numbers stay.
    pub fn clear(self) -> Recorded
        ensures { result ≡ clear_of self }
    {
        let number = Refusal::number_of(self.trail_refusal());
        if number != 0 {
            return Recorded {
                number,
                trail: self,
            };
        }
        let buf = self.buf;
        Recorded {
            number: 0,
            trail: Trail {
                buf,
                head: 0,
                len: 0,
            },
        }
    }

    // How many samples are held.
    pub fn len(self) -> Result<usize, Refusal>
        ensures { result ≡ count_of self }
    {
        let trail = self.trail_refusal();
        trail?;
        Ok(self.len as usize)
    }

    // Whether none is held.
    pub fn is_empty(self) -> Result<bool, Refusal>
        ensures { result ≡ emptiness_of self }
    {
        self.trail_refusal()?;
        Ok(self.len == 0)
    }
}
