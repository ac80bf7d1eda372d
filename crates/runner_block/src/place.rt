//! What a runner's code keeps of a run in progress.
ghost use Rattle.std.specs.Prelude.{◌≡◌};
ghost use Rattle.runner_block.specs.Places.{opened_place};

use machine_states::body_terms::Word;

/// The run's descriptor, the request and the lock that its words name, and how many words were agreed on.
#[derive(Clone, Copy)]
pub struct RunPlace {
    pub descriptor: u32,
    pub request: u32,
    pub lock: u32,
    pub agreed: u32,
    /// The epoch that the run loaded last for a retirement.
    pub epoch: u64,
    /// Whether a run is in progress that is open and isn't at its end.
    pub inside: bool,
    /// Whether a Make has its slot in the hand.
    pub making: bool,
    /// Whether a cell of that slot came to the greatest version.
    pub worn: bool,
}

impl RunPlace {
    /// The thunk word with this index was loaded, of a run of this descriptor: the first one begins it, the second one
    /// is its request, and the third one its section's lock.
    #[inline(always)]
    pub fn opened(&mut self, descriptor: u32, index: u32, word: u64)
        ensures { self.new ≡ opened_place self.old descriptor index word }
    {
        if index == 0 {
            self.descriptor = descriptor;
            self.agreed = 0;
            self.epoch = 0;
            self.making = false;
            self.worn = false;
        } else if index == 1 {
            self.request = Word::from_bits(word).value();
        } else if index == 2 {
            self.lock = Word::from_bits(word).value();
        }
    }
}
