//! What holds of the transcripts of a session, whatever its turns. Each function does nothing: its contract is the
//! law, so the law is proved where the function is.
ghost use Rattle.nats_link_text.specs.Law.{CarriesTexts, NoSmuggling};

use nats_client_text::laws::read_back;

/// Each link of a transcript carries the texts of the commands of its part of the history, and nothing else, whatever
/// the settings. With `skip_subject_validation` such a text may be read as other commands than it was written for.
pub fn carries_texts()
    ensures { CarriesTexts }
{}

/// Where subjects are tested before they are taken, what each link of a transcript carries is read by the grammar of
/// client commands to its end, as exactly the commands of the link's part of the history: those of the calls that
/// were handled, of the links that came up, of the PINGs that were read and of the ticks. So no subject, reply, queue
/// group, header or token carries another command, whoever chose it.
pub fn no_smuggling()
    ensures { NoSmuggling }
{
    read_back();
}
