// The call of the bridge: the body just accepted, or the table in force, each as lent. The table may
// outlive the frame, so each has a lifetime of its own.
//
//     let now = bridge::open_or_keep(keys, &frame, in_force);
#![tactic(auto)]

ghost use Rattle.bridge.specs.Promise.{OpenOrKeepPromise};

use keys::KeySet;

// The body of an accepted frame, as that part of the frame; otherwise the table in force, whole.
pub fn open_or_keep<'a, 'b: 'a>(keys: KeySet, frame: &'a [u8], table: &'b [u8]) -> &'a [u8]
    ensures { OpenOrKeepPromise keys frame.entry table.entry result }
{
    frame::open_or(keys, frame, table)
}
