//! What is true of every message of a client. The function does nothing: its contract is the law.

ghost use Rattle.std.specs.Prelude.{◌≡◌, List, ℕ, Some};
ghost use Rattle.v6_message.specs.declared.reading.Bad6.TheVariants.{OtherType};
ghost use Rattle.v6_message.specs.Replies.{refusal_of};
ghost use Rattle.v6_message.specs.Requests.{SaidContent, message6_text};
ghost use Rattle.v6_message.specs.ReadBack.{FitsSaid, said6_in};

/// The bytes of a client's message spell that message; no bytes spell two; what spells a message is its bytes; and to a
/// client they are no message of a server.
pub fn said_is_read_back()
    ensures read { (said : SaidContent) → FitsSaid said → said6_in (message6_text said) ≡ Some said }
    ensures one { (a b : SaidContent) → FitsSaid a → FitsSaid b → message6_text a ≡ message6_text b → a ≡ b }
    ensures only { (message : List ℕ) (said : SaidContent) → said6_in message ≡ Some said
        → message ≡ message6_text said }
    ensures other { (said : SaidContent) → FitsSaid said → refusal_of (message6_text said) ≡ Some OtherType }
{}
