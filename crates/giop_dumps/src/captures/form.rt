//! The form of a capture.

ghost use Rattle.std.specs.Prelude.{◌≡◌};
ghost use Rattle.giop_dumps.specs.Forms.{form_in, is_front_of_giop as is_front_of_giop_in, is_pcapng as is_pcapng_in};

/// The form of a capture.
#[derive(Clone, Copy, Debug, PartialEq, Eq)]
pub enum CaptureForm {
    /// The octets of one direction.
    Octets,
    /// What `tshark -q -z follow,tcp,raw,N` prints.
    Text,
}

/// Whether octets may be the front of those of a direction.
fn is_front_of_giop(front: &[u8]) -> bool
    ensures { result ≡ is_front_of_giop_in front.now }
{
    let word = b"GIOP".as_slice();
    if front.len() < word.len() {
        word.starts_with(front)
    } else {
        front.starts_with(word)
    }
}

/// Whether octets begin a file of packets, which is no capture of a connection.
fn is_pcapng(front: &[u8]) -> bool
    ensures { result ≡ is_pcapng_in front.now }
{
    front.starts_with(b"\n\r\r\n".as_slice())
}

/// The form of a capture that begins with these octets; none where it has neither.
pub fn form_of(front: &[u8]) -> Option<CaptureForm>
    ensures { result ≡ form_in front.now }
{
    if is_front_of_giop(front) {
        return Some(CaptureForm::Octets);
    }
    if is_pcapng(front) {
        return None;
    }
    match front.first() {
        Some(b'\n') | Some(b'\r') | Some(b'=') => Some(CaptureForm::Text),
        _ => None,
    }
}
