//! Gates, which may hold up the members of a drive.
ghost use Rattle.std.specs.Prelude.{◌≡◌, ℕ, Bool, true};

/// A gate, which may hold up the members of a drive at three places of each pass. Their threads
/// share it.
pub trait Gate: Sync {
    /// Whether this client may ever pass. By default each may.
    ghost lets: { Self → ℕ → Bool } = { λ _ _. true };

    /// Called when this client is about to ask.
    fn before(&self, client: u8);

    /// Called when this client has drawn its ticket and asked.
    fn drawn(&self, client: u8);

    /// Returns whether this client, which is inside, may pass now. Called again until it returns
    /// `true` or the client's turns are spent.
    fn may_pass(&self, client: u8) -> bool
        ensures { result ≡ true → lets self.now client ≡ true };
}

/// A gate that lets all clients through.
#[derive(Clone, Copy, Debug)]
pub struct NoGate;

impl Gate for NoGate {
    fn before(&self, _client: u8) {}

    fn drawn(&self, _client: u8) {}

    fn may_pass(&self, _client: u8) -> bool
        ensures { result ≡ true }
    {
        true
    }
}
