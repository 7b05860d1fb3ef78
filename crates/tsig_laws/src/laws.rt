//! What the holder of a key signs is taken as signed (RFC 8945, 5.2).
ghost use Rattle.std.specs.Prelude.{◌≡◌, ◌≤◌, ◌<◌, ◌+◌, ◌-◌, ◌^◌, [], ◌∷◌, ℕ, List, Some, length};
ghost use Rattle.dns_name.specs.Name.{IsName};
ghost use Rattle.dns_message.specs.Tsig.{place_in};
ghost use Rattle.dns_message.specs.declared.tsig.Place.TheVariants.{At};
ghost use Rattle.tsig.specs.Digested.{message, mac_over};
ghost use Rattle.tsig.specs.Keys.{SharedKey, algorithm_name, key_of};
ghost use Rattle.tsig.specs.Signing.{stamped, signed};
ghost use Rattle.tsig.specs.Verification.{request_tsig_of, verified};
ghost use Rattle.tsig.specs.declared.stamp.Stamp.{Stamp as Given};
ghost use Rattle.tsig.specs.declared.verifying.Verification.TheVariants.{Signed as Taken};

use tsig::{fields_are_read_back, what_is_signed};

/// A request that the holder of a key signs is taken as signed by who has the key, at a time within its fudge, where its TSIG is found where it was put (RFC 8945, 5.2): by its first key of that name
/// and that algorithm. A message has an ID, eight octets of flags and counts, its number of additional records, and the rest.
pub fn signed_is_taken()
    ensures { (keys : List SharedKey) (key : SharedKey) (index now : ℕ) (stamp : Given) (id count a b c d e f g h : ℕ) (rest : List ℕ) → id < 2 ^ 16 → count < 2 ^ 16 - 1 → a < 128
        → IsName key.name → stamp.time < 2 ^ 48 → stamp.fudge < 2 ^ 16
        → let plain = message id (a ∷ b ∷ c ∷ d ∷ e ∷ f ∷ g ∷ h ∷ []) count rest in
        let sent = signed key [] stamp plain in
        place_in sent ≡ Some (At (12 + length rest))
        → key_of key.name (algorithm_name key.secret.algorithm) keys ≡ Some (index, key)
        → now - stamp.time ≤ stamp.fudge → stamp.time - now ≤ stamp.fudge
        → verified keys now sent ≡ Taken (request_tsig_of index (12 + length rest) (stamped stamp plain (mac_over key [] plain (stamped stamp plain [])))) }
{
    fields_are_read_back();
    what_is_signed();
}
