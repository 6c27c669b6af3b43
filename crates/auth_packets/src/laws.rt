//! Laws of the messages that no single call shows.

ghost use Rattle.auth_packets.specs.Commands.{change_user, command};
ghost use Rattle.auth_packets.specs.Exchange.{more, next_factor, switch};
ghost use Rattle.auth_packets.specs.Handshake.{greeting, response};
ghost use Rattle.auth_packets.specs.Replies.{eof_packet, err_packet, ok_packet};
ghost use Rattle.wire_form.specs.Payloads.{SpellsOne};

/// No payload spells two values of a message.
pub fn one_value()
    ensures greeting { SpellsOne greeting.Spells }
    ensures response { SpellsOne response.Spells }
    ensures switch { SpellsOne switch.Spells }
    ensures more { SpellsOne more.Spells }
    ensures next_factor { SpellsOne next_factor.Spells }
    ensures ok_packet { SpellsOne ok_packet.Spells }
    ensures err_packet { SpellsOne err_packet.Spells }
    ensures eof_packet { SpellsOne eof_packet.Spells }
    ensures change_user { SpellsOne change_user.Spells }
    ensures command { SpellsOne command.Spells }
{}
