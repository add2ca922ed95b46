// Changing payload memory.
ghost use Rattle.std.specs.Prelude.{◌≡◌, ◌<◌, length};
ghost use Rattle.register.specs.Register.{changed_at};

use crate::Memory;
use orders::Payload;

// Joins a payload to the one at a place.
fn join_at<P: Payload>(payloads: &mut [P], place: usize, by: P)
    requires { place < length payloads.old }
    ensures { payloads.new ≡ changed_at (λ x. P.joined x by) place payloads.old }
{
    payloads[place] = payloads[place].join(by);
}

impl<'m, K, P: Payload> Memory<'m, K, P> {
    // Joins a payload to the one at a place of payload memory; nothing else changes.
    pub(crate) fn amend(&mut self, place: usize, by: P)
        requires { place < length self.old.payloads.now }
        ensures keys { self.new.keys.now ≡ self.old.keys.now }
        ensures rows { self.new.rows.now ≡ self.old.rows.now }
        ensures payloads { self.new.payloads.now ≡ changed_at (λ x. P.joined x by) place self.old.payloads.now }
    {
        join_at(self.payloads, place, by);
    }
}
