//! Laws of numbers, packets and streams, each the contract of a function that does nothing.

ghost use Rattle.std.specs.Prelude.{◌≡◌, ◌≢◌, ◌<◌, ◌^◌, ◌++◌, ◌∷◌, List, ℕ, [], None, Some, All, take, drop};
ghost use Rattle.milter_fields.specs.declared.fault.WireFault.{WireFault};
ghost use Rattle.milter_fields.specs.declared.number.TheConstants.{LENGTH_MAX, PACKET_MAX, PAYLOAD_MAX};
ghost use Rattle.milter_fields.specs.Number.{BeginsWithNumber, IsBytes, number, number_at};
ghost use Rattle.milter_fields.specs.Packet.{IsPayload, packet};
ghost use Rattle.milter_fields.specs.Stream.{Frame, Divides, IsFrame, IsUnfinished, divide, frame_bytes, length_fault, with_frame};

/// The numbers that the definitions name: the most bytes of a payload, the greatest length field, which counts the code
/// too, and the most bytes of a packet with its length field.
pub fn packet_limits()
    ensures payload { PAYLOAD_MAX ≡ 65535 }
    ensures length { LENGTH_MAX ≡ 65536 }
    ensures packet { PACKET_MAX ≡ 65540 }
{}

/// A number that is encoded is read back, and what is read is what its four bytes encode.
pub fn four_byte_numbers()
    ensures read_back { (n : ℕ) (rest : List ℕ) → n < 2 ^ 32 → number_at (number n ++ rest) ≡ Some (n, rest) }
    ensures encoded { (bytes : List ℕ) (n : ℕ) (rest : List ℕ) → IsBytes bytes → number_at bytes ≡ Some (n, rest) →
        BeginsWithNumber bytes n rest }
{}

/// A packet has one code and one payload, no packet is a proper prefix of another, and a proper prefix of one begins
/// with no packet and no fault.
pub fn packets_apart()
    ensures same { (code other : ℕ) (payload others : List ℕ) → packet code payload ≡ packet other others →
        (code ≡ other) × (payload ≡ others) }
    ensures whole { (code other : ℕ) (payload others more : List ℕ) → IsPayload payload → IsPayload others →
        packet code payload ++ more ≡ packet other others → more ≡ [] }
    ensures unfinished { (bytes more : List ℕ) (f : Frame) → IsFrame f → more ≢ [] →
        bytes ++ more ≡ frame_bytes f → IsUnfinished bytes }
{}

/// Every stream of bytes divides into packets and a rest, and `divide` computes them.
pub fn stream_divides()
    ensures { (bytes : List ℕ) → All (λ byte. byte < 2 ^ 8) bytes →
        Divides bytes (divide bytes).frames (divide bytes).rest }
{}

/// A stream divides in one way only.
pub fn one_division()
    ensures frames { (bytes rest other : List ℕ) (frames others : List Frame) →
        Divides bytes frames rest → Divides bytes others other → frames ≡ others }
    ensures rest { (bytes rest other : List ℕ) (frames others : List Frame) →
        Divides bytes frames rest → Divides bytes others other → rest ≡ other }
{}

/// A stream that goes on has the packets that it had, and then those of what was left and what came.
pub fn stream_goes_on()
    ensures { (bytes more : List ℕ) → divide (bytes ++ more) ≡ record {
      frames = (divide bytes).frames ++ (divide ((divide bytes).rest ++ more)).frames;
      rest = (divide ((divide bytes).rest ++ more)).rest;
    } }
{}

/// What the results of a splitter mean for the whole stream, after it took `n` bytes of a piece.
pub fn fed_stream()
    // Its unread bytes and what is left of the piece are what was unread before and the piece.
    ensures whole { (unread piece new : List ℕ) (n : ℕ) → new ≡ unread ++ take n piece →
        new ++ drop n piece ≡ unread ++ piece }
    // A packet that it hands out is the first of the stream.
    ensures packet { (unread piece new : List ℕ) (n : ℕ) (f : Frame) → new ≡ unread ++ take n piece →
        new ≡ frame_bytes f → IsFrame f → divide (unread ++ piece) ≡ with_frame f (divide (drop n piece)) }
    // A fault that it answers is at the start of the stream, and no packet comes before it.
    ensures fault { (unread piece new : List ℕ) (n : ℕ) (f : WireFault) → new ≡ unread ++ take n piece →
        length_fault new ≡ Some f → length_fault (unread ++ piece) ≡ Some f }
    ensures no_packet { (unread piece new : List ℕ) (n : ℕ) (f : WireFault) → new ≡ unread ++ take n piece →
        length_fault new ≡ Some f → divide (unread ++ piece) ≡ record { frames = []; rest = unread ++ piece } }
    // Where it answers neither, there is neither.
    ensures unfinished { (bytes : List ℕ) → IsUnfinished bytes → divide bytes ≡ record { frames = []; rest = bytes } }
    ensures no_fault { (bytes : List ℕ) → IsUnfinished bytes → length_fault bytes ≡ None }
{}
