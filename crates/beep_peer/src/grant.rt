//! What the grant of a request of channel zero makes of the live channels (RFC 3080, sections
//! 2.3.1.2 and 2.3.1.3).
ghost use Rattle.std.specs.Prelude.{◌≡◌, ℕ, ◌≤◌, ◌∷◌, [], length, not, nat_lt, ◌&&◌, List, None, Some, true, IfSome};
ghost use Rattle.beep_upright.specs.beep_mgmt.specs.Form.{close};
ghost use Rattle.beep_upright.specs.beep_lives.specs.Lives.{live_at};
ghost use Rattle.std.specs.Option.{option_to_list};
ghost use Rattle.beep_upright.specs.beep_channel.specs.Held.{Live};
ghost use Rattle.beep_upright.specs.beep_decide.specs.Asks.{is_close_of};
ghost use Rattle.beep_upright.specs.beep_turns.specs.declared.turns.TheConstants.{MAX_CHANNELS};
ghost use Rattle.beep_upright.specs.beep_asked.specs.Request.{kept_of};
ghost use Rattle.beep_upright.specs.beep_management.specs.Managed.{number_started};
ghost use Rattle.beep_upright.specs.beep_management.specs.Manages.{IsFresh, AreFresh};
ghost use Rattle.beep_upright.specs.beep_management.specs.Moved.{Does, JoinsWhere, is_live_in};
ghost use Rattle.beep_peer.specs.Grants.{NamesAbove};

use beep_upright::beep_channel::Channel;
use beep_upright::beep_lives::Lives;
use beep_upright::beep_management::Answered;
use beep_upright::beep_mgmt::Mgmt;

/// Does to the channels what the grant of a request makes of lives: a start has its channel join, a
/// close has the channel leave that it names. True where the session is released.
pub(crate) fn grant(lives: &mut Lives, answered: Answered) -> bool
    requires room { IfSome answered.channel (λ channel. length lives.old ≤ MAX_CHANNELS) }
    requires number { IfSome answered.channel (λ channel.
        number_started (kept_of answered.request).said ≡ channel.held.number ∷ []) }
    requires above { NamesAbove (kept_of answered.request).said answered.request.names }
    ensures done { (size : ℕ) (channel : Live)
        → AreFresh size (number_started (kept_of answered.request).said)
        (option_to_list answered.channel)
        → IfSome answered.channel (λ one. one ≡ channel)
        → Does size (kept_of answered.request).said answered.request.names channel
        lives.old lives.new }
    ensures leaves { (number code : ℕ) (note : List ℕ)
        → (kept_of answered.request).said ≡ Some (close number code note)
        → answered.request.names ≡ true → live_at number lives.new ≡ None }
    ensures released { result ≡ is_close_of 0 (kept_of answered.request).said }
{
    let Answered { request, channel } = answered;
    match request.said {
        Some(Mgmt::Start { number, .. }) => {
            join(lives, number, channel);
            false
        }
        Some(Mgmt::Close { number, .. }) => {
            if request.names {
                lives.remove(number);
            }
            number == 0
        }
        Some(Mgmt::Greeting { .. } | Mgmt::Chosen { .. } | Mgmt::Okay | Mgmt::Fault { .. })
        | None => false,
    }
}

/// The channel of a start joins, where its number is above 0 and not live.
fn join(lives: &mut Lives, number: u32, channel: Option<Channel>)
    requires room { IfSome channel (λ one. length lives.old ≤ MAX_CHANNELS) }
    requires number { IfSome channel (λ one. one.held.number ≡ number) }
    ensures { (size : ℕ) (one : Live) → channel ≡ Some one → IsFresh size number one
        → JoinsWhere (nat_lt 0 number && not (is_live_in lives.old number)) size number one
        lives.old lives.new }
{
    if number == 0 || lives.is_live(number) {
        return;
    }
    if let Some(channel) = channel {
        lives.add(channel);
    }
}
