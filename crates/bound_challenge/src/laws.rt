//! What holds of the definitions: each is the contract of a function that does nothing.
ghost use Rattle.std.specs.Prelude.{◌≡◌, ◌≢◌, ◌<◌, ◌^◌, ℕ, List, ◌∷◌, [], IsTrue, length};
ghost use Rattle.ar_base.specs.Apart.{none_collide};
ghost use Rattle.bound_challenge.specs.Challenges.{live_challenge, live_string, staple_challenge, staple_string};

/// A staple's challenge is of one epoch and one channel, unless two strings collide.
pub fn a_staple_is_of_one_epoch_and_channel()
    ensures { (epoch other_epoch : ℕ) (channel other : List ℕ)
        → epoch < 2 ^ 64 → other_epoch < 2 ^ 64
        → IsTrue (none_collide (staple_string epoch channel ∷ staple_string other_epoch other ∷ []))
        → staple_challenge epoch channel ≡ staple_challenge other_epoch other
        → (epoch ≡ other_epoch) × (channel ≡ other) }
{}

/// A live challenge is of one nonce and one exporter, unless two strings collide.
pub fn a_live_challenge_is_of_one_nonce_and_exporter()
    ensures { (nonce other_nonce exporter other : List ℕ)
        → length nonce ≡ length other_nonce
        → IsTrue (none_collide (live_string nonce exporter ∷ live_string other_nonce other ∷ []))
        → live_challenge nonce exporter ≡ live_challenge other_nonce other
        → (nonce ≡ other_nonce) × (exporter ≡ other) }
{}

/// No staple's challenge is a live one, unless two strings collide.
pub fn no_staple_is_live()
    ensures { (epoch : ℕ) (channel nonce exporter : List ℕ)
        → IsTrue (none_collide (staple_string epoch channel ∷ live_string nonce exporter ∷ []))
        → staple_challenge epoch channel ≢ live_challenge nonce exporter }
{}
