// What wakes threads that wait for the map. That they are woken no contract says.
ghost use Rattle.std.specs.Prelude.{◌≢◌};

use std::hint::spin_loop;
use std::sync::Wait;
use std::sync::atomic::{AtomicU64, Ordering};
use std::thread::yield_now;

// How often a thread looks before it sleeps. Who wakes a sleeper pays for it, more than a small text takes.
const LOOKS: u64 = 1024;

// A sleeper is told by the low 32 bits of a count.
const LOW_BITS: u64 = 1 << 32;

// A counter that threads wait on.
//
// Why no ring is lost: who waits is counted all the time, as one who looks or as one who sleeps, and compares the count
// once more in the step in which it falls asleep. Who rings changes the count first, and asks for those then. Where it finds
// nobody, who comes later finds the ring; who looks finds it too, at the latest as it falls asleep; and where all sleep,
// one is woken. Who comes back from a wait for orders does the same for the next. So a thread sleeps on behind a ring only
// where another was found in its place that had heard this ring before: that one has looked for orders behind it, and there
// were none.
#[derive(Drop)]
struct Counter {
    count: AtomicU64,
    lookers: AtomicU64,
    sleepers: AtomicU64,
}

impl Counter {
    // A counter at 0, on which nobody waits.
    fn new() -> Counter {
        Counter {
            count: AtomicU64::new(0),
            lookers: AtomicU64::new(0),
            sleepers: AtomicU64::new(0),
        }
    }

    // Adds one, to 0 behind the last value.
    fn add(&self) {
        self.count.fetch_add(1, Ordering::SeqCst);
    }

    // Wakes one thread that sleeps, if any does and none looks: one that looks finds the ring, and wakes the next.
    fn wake_next(&self) {
        if self.lookers.load(Ordering::SeqCst) == 0 && self.sleepers.load(Ordering::SeqCst) != 0 {
            self.count.wake_one();
        }
    }

    // Wakes all threads that sleep.
    fn wake_all(&self) {
        if self.sleepers.load(Ordering::SeqCst) != 0 {
            self.count.wake_all();
        }
    }

    // Waits while the counter is `heard`: first looks, then sleeps. It gives the counter, which is another then, and whether
    // it slept.
    fn wait<R: Wait>(&self, rt: &R, heard: u64) -> (u64, bool)
        ensures { result.0 ≢ heard }
    {
        self.lookers.fetch_add(1, Ordering::SeqCst);
        let seen = self.look(heard);
        if seen != heard {
            self.lookers.fetch_sub(1, Ordering::SeqCst);
            return (seen, false);
        }
        self.sleepers.fetch_add(1, Ordering::SeqCst);
        self.lookers.fetch_sub(1, Ordering::SeqCst);
        let count = self.sleep(rt, heard);
        self.sleepers.fetch_sub(1, Ordering::SeqCst);
        (count, true)
    }

    // Looks while the counter is `heard`, a number of times, and gives what it saw last.
    fn look(&self, heard: u64) -> u64 {
        for _ in 0..LOOKS {
            let count = self.count.load(Ordering::SeqCst);
            if count != heard {
                return count;
            }
            spin_loop();
        }
        heard
    }

    // Sleeps while the counter is `heard`, and gives the counter, which is another then.
    fn sleep<R: Wait>(&self, rt: &R, heard: u64) -> u64
        ensures { result ≢ heard }
    {
        let low = (heard % LOW_BITS) as u32;
        for _ in rt.forever() {
            let count = self.count.load(Ordering::SeqCst);
            if count != heard {
                return count;
            }
            self.count.park(rt, low);
        }
        unreachable!()
    }
}

/// Two counters that threads wait on: workers on that of the orders, and the thread that leads them on that of the
/// posts. Who waits on a counter keeps what it was given last, and so misses no ring. It looks a while before it sleeps.
#[derive(Drop)]
pub struct Bell {
    orders: Counter,
    posts: Counter,
}

impl Bell {
    /// A bell whose counters are at 0.
    pub fn new() -> Bell {
        Bell {
            orders: Counter::new(),
            posts: Counter::new(),
        }
    }

    /// So many URLs were asked for: unless there are none, counts an order, and wakes one thread that sleeps until there
    /// are orders, where none looks for them. Who looks or is woken wakes the next, so who rings needn't wake them all.
    pub fn ring_for_orders(&self, asked: usize) {
        if asked == 0 {
            return;
        }
        self.orders.add();
        self.orders.wake_next();
    }

    /// So many were posted: unless there are none, counts a post, and wakes all that sleep until there are posts.
    pub fn ring_for_posts(&self, posted: usize) {
        if posted == 0 {
            return;
        }
        self.posts.add();
        self.posts.wake_all();
    }

    /// The map was shut: counts on both, and wakes all that sleep.
    pub fn ring_for_all(&self) {
        self.orders.add();
        self.posts.add();
        self.orders.wake_all();
        self.posts.wake_all();
    }

    /// Waits while the counter of the orders is `heard`, wakes one thread more that sleeps until there are orders, where
    /// none looks for them, and gives that counter, which is another then.
    ///
    /// Who has slept stands back once: it wakes on the processor on which it ran last, where the calling thread may be at work.
    pub fn wait_for_order<R: Wait>(&self, rt: &R, heard: u64) -> u64
        ensures { result ≢ heard }
    {
        let (count, slept) = self.orders.wait(rt, heard);
        self.orders.wake_next();
        if slept {
            yield_now();
        }
        count
    }

    /// Waits while the counter of the posts is `heard`, and gives that counter, which is another then.
    pub fn wait_for_post<R: Wait>(&self, rt: &R, heard: u64) -> u64
        ensures { result ≢ heard }
    {
        let (count, _slept) = self.posts.wait(rt, heard);
        count
    }
}
