ghost use Rattle.std.specs.Prelude.{◌≡◌, ◌≤◌, length};
ghost use Rattle.kind_core.specs.Padded.{padded};

/// The bytes at the front of a room of 16, with zeros behind them.
pub(crate) fn room_of_16(bytes: &[u8]) -> [u8; 16]
    requires { length bytes.now ≤ 16 }
    ensures { result ≡ padded 16 bytes.now }
{
    let mut cells = [0u8; 16];
    for i in 0..bytes.len() {
        cells[i] = bytes[i];
    }
    cells
}

/// The bytes at the front of a room of 64, with zeros behind them.
pub(crate) fn room_of_64(bytes: &[u8]) -> [u8; 64]
    requires { length bytes.now ≤ 64 }
    ensures { result ≡ padded 64 bytes.now }
{
    let mut cells = [0u8; 64];
    for i in 0..bytes.len() {
        cells[i] = bytes[i];
    }
    cells
}
