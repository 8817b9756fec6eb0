// The static library for C programs: the call of rig under the name that rig/kusucopper.h declares.
//
// C passes the bytes as a pointer and a length. The call promises what rig's does. Rests on rig.
#![tactic(auto)]

ghost use Rattle.std.specs.Prelude.{◌≡◌, [], ◌∷◌};
ghost use Rattle.rig.specs.Calls.{answer};

// The decision of the packet, or 100 plus the number of the refusal to open the bytes.
#[unsafe(no_mangle)]
pub extern "C" fn kusucopper_decide(
    bytes: &[u8],
    source: u32,
    source_port: u16,
    destination: u32,
    destination_port: u16,
    protocol: u8,
) -> u32
    ensures { result ≡ answer bytes.now (source ∷ source_port ∷ destination ∷ destination_port ∷ protocol ∷ []) }
{
    rig::kusucopper_decide(
        bytes,
        source,
        source_port,
        destination,
        destination_port,
        protocol,
    )
}
