ghost use Rattle.std.specs.Prelude.{◌≡◌, ◌<◌, ◌≤◌, List, ℕ, length, Contains, IfOk, IfSome, IsOk, OnErr, OnOk};
ghost use Rattle.std.specs.declared.option.Option.{Option};
ghost use Rattle.rp_io.specs.Counts.{Rose, raised};
ghost use Rattle.rp_io.specs.Files.{Contents, Fetches, content_of};

use crate::Failed;

/// Files that are read by name, a piece at a time.
pub trait Files {
    /// The bytes under each name, where the files tell them.
    ghost told: { Self → Option Contents };

    /// Names on which no call fails.
    ghost sound: { Self → List (List ℕ) };

    /// How many calls failed.
    ghost faults: { Self → ℕ };

    /// How many bytes were given.
    ghost given: { Self → ℕ };

    /// Reads bytes from a place of the file on into the front of the buffer, and answers how many:
    /// none at the end of the file alone. At `Failed` the buffer holds any bytes.
    fn fetch(&mut self, name: &str, from: u64, buf: &mut [u8]) -> Result<usize, Failed>
        requires { 0 < length buf.old }
        ensures same_told { told self.new ≡ told self.old }
        ensures same_sound { sound self.new ≡ sound self.old }
        ensures within { IfOk result (λ n. n ≤ length buf.new) }
        ensures content { IfOk result (λ n.
            IfSome (content_of (told self.old) name.now) (λ content. Fetches content from n buf.new)) }
        ensures given { IfOk result (λ n. given self.new ≡ raised (given self.old) n) }
        ensures none_given { OnErr result (given self.new ≡ given self.old) }
        ensures never_falls { faults self.old ≤ faults self.new }
        ensures no_fault { OnOk result (faults self.new ≡ faults self.old) }
        ensures failed { OnErr result (Rose (faults self.old) (faults self.new)) }
        ensures sound_names { Contains (sound self.old) name.now → IsOk result };
}
