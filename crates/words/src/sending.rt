// Putting what a send changes into words.
ghost use Rattle.std.specs.Prelude.{◌≡◌, true};
ghost use Rattle.window.specs.Sending.{with_sent};
ghost use Rattle.words.specs.Taken.{fits, window_in};
ghost use Rattle.words.specs.Put.{words_of};

// S alone put anew, the other words being the state's already.
// inner: for a caller that has asked whether the words fit.
pub fn put_sent(k: u64, words: &mut [u64; 457])
    requires { fits words.old ≡ true }
    ensures { words.new ≡ words_of (with_sent (window_in words.old) k) }
{
    words[135] = k;
}
