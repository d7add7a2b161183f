//! The words of a store, as one session steps at them.
ghost use Rattle.std.specs.Prelude.{◌≡◌, ◌<◌, ◌≤◌, ◌+◌, ◌^◌, ℕ, false};
ghost use Rattle.fkv_map.specs.declared.operations.Call.{Call};
ghost use Rattle.fkv_plane.specs.declared.asks.Ask.TheVariants.{Load, Store, Swap, Cas, Add};
ghost use Rattle.fkv_session.specs.Sessions.{Seat, SessionState, is_busy};
ghost use Rattle.fkv_straight.specs.Standing.{asked, leads, begins, replayed};

use fkv_map::Call;

/// The shared words, for the session of which it keeps where the machine stands. It lets the session make just the steps that the machine
/// asks for there, and keeps up to 64 replies of a call.
pub trait Line {
    /// Whose machine it is, in which store.
    ghost seat: { Self → Seat };

    /// Where the machine stands by the steps that were made.
    ghost stands: { Self → SessionState };

    /// Since the line stood as the first, the call has begun and has come to the last, by the replies that are kept.
    ghost led: { Self → Call → Self → Type 0 };

    /// How many replies are kept.
    ghost kept: { Self → ℕ };

    /// Begins a call, and makes its first step, a load. The replies of the call before are kept no more.
    fn first(&mut self, call: Call, place: usize) -> u64
        requires idle { is_busy (stands self.old).step ≡ false }
        requires asked { asked (seat self.old) (begins (seat self.old) (stands self.old) call) ≡ Load place }
        ensures next { stands self.new ≡ leads (seat self.old) (begins (seat self.old) (stands self.old) call) result }
        ensures led { led self.old call self.new }
        ensures kept { kept self.new ≡ 1 }
        ensures seat { seat self.new ≡ seat self.old };

    /// Begins a call as `first` does, at a place behind those of the shared words: nobody asks there which of the two it is.
    fn first_past(&mut self, call: Call, place: usize) -> u64
        requires idle { is_busy (stands self.old).step ≡ false }
        requires asked { asked (seat self.old) (begins (seat self.old) (stands self.old) call) ≡ Load place }
        requires past { 24 ≤ place }
        ensures next { stands self.new ≡ leads (seat self.old) (begins (seat self.old) (stands self.old) call) result }
        ensures led { led self.old call self.new }
        ensures kept { kept self.new ≡ 1 }
        ensures seat { seat self.new ≡ seat self.old }
    {
        self.first(call, place)
    }

    /// Begins a call whose first step adds to a word, as `add` does. The replies of the call before are kept no more.
    fn first_add(&mut self, call: Call, place: usize, number: u64) -> u64
        requires idle { is_busy (stands self.old).step ≡ false }
        requires asked { asked (seat self.old) (begins (seat self.old) (stands self.old) call) ≡ Add place number }
        ensures next { stands self.new ≡ leads (seat self.old) (begins (seat self.old) (stands self.old) call) result }
        ensures led { led self.old call self.new }
        ensures kept { kept self.new ≡ 1 }
        ensures seat { seat self.new ≡ seat self.old };

    /// The word at a place.
    fn load(&mut self, place: usize) -> u64
        requires asked { asked (seat self.old) (stands self.old) ≡ Load place }
        requires room { kept self.old < 64 }
        ensures next { stands self.new ≡ leads (seat self.old) (stands self.old) result }
        ensures led { (start : Self) (call : Call) → led start call self.old → led start call self.new }
        ensures kept { kept self.new ≡ kept self.old + 1 }
        ensures seat { seat self.new ≡ seat self.old };

    /// The same, at a place behind those of the shared words.
    fn load_past(&mut self, place: usize) -> u64
        requires asked { asked (seat self.old) (stands self.old) ≡ Load place }
        requires room { kept self.old < 64 }
        requires past { 24 ≤ place }
        ensures next { stands self.new ≡ leads (seat self.old) (stands self.old) result }
        ensures led { (start : Self) (call : Call) → led start call self.old → led start call self.new }
        ensures kept { kept self.new ≡ kept self.old + 1 }
        ensures seat { seat self.new ≡ seat self.old }
    {
        self.load(place)
    }

    /// The word becomes the number; gives the word as it was, as `swap` and `cas` do.
    fn store(&mut self, place: usize, new: u64) -> u64
        requires asked { asked (seat self.old) (stands self.old) ≡ Store place new }
        requires room { kept self.old < 64 }
        ensures next { stands self.new ≡ leads (seat self.old) (stands self.old) result }
        ensures led { (start : Self) (call : Call) → led start call self.old → led start call self.new }
        ensures kept { kept self.new ≡ kept self.old + 1 }
        ensures seat { seat self.new ≡ seat self.old };

    /// The word becomes the number.
    fn swap(&mut self, place: usize, new: u64) -> u64
        requires asked { asked (seat self.old) (stands self.old) ≡ Swap place new }
        requires room { kept self.old < 64 }
        ensures next { stands self.new ≡ leads (seat self.old) (stands self.old) result }
        ensures led { (start : Self) (call : Call) → led start call self.old → led start call self.new }
        ensures kept { kept self.new ≡ kept self.old + 1 }
        ensures seat { seat self.new ≡ seat self.old };

    /// The same, at a place behind those of the shared words.
    fn swap_past(&mut self, place: usize, new: u64) -> u64
        requires asked { asked (seat self.old) (stands self.old) ≡ Swap place new }
        requires room { kept self.old < 64 }
        requires past { 24 ≤ place }
        ensures next { stands self.new ≡ leads (seat self.old) (stands self.old) result }
        ensures led { (start : Self) (call : Call) → led start call self.old → led start call self.new }
        ensures kept { kept self.new ≡ kept self.old + 1 }
        ensures seat { seat self.new ≡ seat self.old }
    {
        self.swap(place, new)
    }

    /// Where the word is the expected one it becomes the new one.
    fn cas(&mut self, place: usize, expected: u64, new: u64) -> u64
        requires asked { asked (seat self.old) (stands self.old) ≡ Cas place expected new }
        requires room { kept self.old < 64 }
        ensures next { stands self.new ≡ leads (seat self.old) (stands self.old) result }
        ensures led { (start : Self) (call : Call) → led start call self.old → led start call self.new }
        ensures kept { kept self.new ≡ kept self.old + 1 }
        ensures seat { seat self.new ≡ seat self.old };

    /// The same, at a place behind those of the shared words.
    fn cas_past(&mut self, place: usize, expected: u64, new: u64) -> u64
        requires asked { asked (seat self.old) (stands self.old) ≡ Cas place expected new }
        requires room { kept self.old < 64 }
        requires past { 24 ≤ place }
        ensures next { stands self.new ≡ leads (seat self.old) (stands self.old) result }
        ensures led { (start : Self) (call : Call) → led start call self.old → led start call self.new }
        ensures kept { kept self.new ≡ kept self.old + 1 }
        ensures seat { seat self.new ≡ seat self.old }
    {
        self.cas(place, expected, new)
    }

    /// The number is added to the word, modulo 2^64; gives the word as it was.
    fn add(&mut self, place: usize, number: u64) -> u64
        requires asked { asked (seat self.old) (stands self.old) ≡ Add place number }
        requires room { kept self.old < 64 }
        ensures next { stands self.new ≡ leads (seat self.old) (stands self.old) result }
        ensures led { (start : Self) (call : Call) → led start call self.old → led start call self.new }
        ensures kept { kept self.new ≡ kept self.old + 1 }
        ensures seat { seat self.new ≡ seat self.old };

    /// Two steps at one moment, if the word at the place is the expected one: its load, and the Cas that raises it by one. Else no step is made, and
    /// no reply is kept. Gives the expected number if the word was raised. Else it gives another number, as a guess at the word.
    fn raise(&mut self, place: usize, expected: u64) -> u64
        requires asked { asked (seat self.old) (stands self.old) ≡ Load place }
        requires then { asked (seat self.old) (leads (seat self.old) (stands self.old) expected) ≡ Cas place expected (expected + 1) }
        requires fits { expected + 1 < 2 ^ 64 }
        requires room { kept self.old < 63 }
        ensures next { result ≡ expected → stands self.new ≡ leads (seat self.old) (leads (seat self.old) (stands self.old) expected) expected }
        ensures led { (start : Self) (call : Call) → led start call self.old → led start call self.new }
        ensures kept { result ≡ expected → kept self.new ≡ kept self.old + 2 }
        ensures still { (result ≡ expected → ⊥) → self.new ≡ self.old }
        ensures seat { seat self.new ≡ seat self.old };

    /// A guess at the word that the next `raise` finds. It may be any number.
    fn guess(&self) -> u64;

    /// The replies that are kept, in order.
    fn replies(&self) -> &[u64]
        ensures led { (start : Self) (call : Call) → led start call self.now
            → stands self.now ≡ replayed (seat self.now) (begins (seat start) (stands start) call) result.now };
}
