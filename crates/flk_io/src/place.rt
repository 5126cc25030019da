// A place that was set aside, which is filled without taking memory.
ghost use Rattle.std.specs.Prelude.{◌≡◌, ◌+◌, ◌-◌, ◌≤◌, ◌++◌, length, vec_len, vec_capacity};

/// Moves the bytes into the place that is left.
pub(crate) fn take_front(bytes: &mut Vec<u8>, room: &mut usize, front: &[u8])
    requires fits { vec_len bytes.old + room.old ≤ vec_capacity bytes.old }
    requires room { length front.now ≤ room.old }
    ensures bytes { bytes.new.items ≡ bytes.old.items ++ front.now }
    ensures room { room.new ≡ room.old - length front.now }
    ensures fits { vec_len bytes.new + room.new ≤ vec_capacity bytes.new }
{
    bytes.extend_from_slice(front).unwrap();
    *room -= front.len();
}
