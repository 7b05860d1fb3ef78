//! What is signed is taken, and nothing else is (RFC 8945, 4.2, 4.3 and 5.2).
ghost use Rattle.std.specs.Prelude.{◌≡◌, ◌≤◌, ◌<◌, ◌+◌, ◌-◌, ◌^◌, ◌++◌, [], ◌∷◌, ℕ, List, Some, true, length};
ghost use Rattle.dns_message.specs.Message.{number_at};
ghost use Rattle.tsig.specs.Digested.{without_tsig, message, mac_over};
ghost use Rattle.tsig.specs.Fields.{Fields, HaveRoom, written, fields_in};
ghost use Rattle.tsig.specs.Keys.{SharedKey};
ghost use Rattle.tsig.specs.Verification.{is_right, verified};
ghost use Rattle.tsig.specs.Signing.{stamped, signed};
ghost use Rattle.tsig.specs.declared.stamp.Stamp.{Stamp as Given};
ghost use Rattle.tsig.specs.SignedBy.{IsSignedBy};
ghost use Rattle.tsig.specs.declared.request_tsig.RequestTsig.{RequestTsig as Said};
ghost use Rattle.tsig.specs.declared.verifying.Verification.TheVariants.{Signed as Taken};

/// The fields of a TSIG that are written are the ones that are read (RFC 8945, 4.2).
pub fn fields_are_read_back()
    ensures { (f : Fields) → HaveRoom f → fields_in (written f) ≡ Some f }
{}

/// What a message was before one more record was put behind it, is what it is without that; and so the MAC of what is signed is right, where its TSIG is found (RFC 8945, 4.3.2).
pub fn what_is_signed()
    ensures put_back { (id count a b c d e f g h : ℕ) (rest tail : List ℕ) → count < 2 ^ 16 - 1
        → without_tsig (message id (a ∷ b ∷ c ∷ d ∷ e ∷ f ∷ g ∷ h ∷ []) (count + 1) (rest ++ tail)) (12 + length rest) id ≡ message id (a ∷ b ∷ c ∷ d ∷ e ∷ f ∷ g ∷ h ∷ []) count rest }
    ensures right { (key : SharedKey) (prior : List ℕ) (stamp : Given) (id count a b c d e f g h : ℕ) (rest : List ℕ) → id < 2 ^ 16 → count < 2 ^ 16 - 1
        → let plain = message id (a ∷ b ∷ c ∷ d ∷ e ∷ f ∷ g ∷ h ∷ []) count rest in
        let own = mac_over key prior plain (stamped stamp plain []) in
        is_right key prior (signed key prior stamp plain) (12 + length rest) (stamped stamp plain own) ≡ true }
{}

/// A request is taken as signed only where a key of the server has the name and the algorithm of its TSIG, its MAC is the key's HMAC of its octets, and its time is within its
/// fudge (RFC 8945, 5.2).
pub fn signed_alone()
    ensures { (keys : List SharedKey) (now : ℕ) (msg : List ℕ) (request_tsig : Said) → verified keys now msg ≡ Taken request_tsig → IsSignedBy keys now msg request_tsig }
{}
