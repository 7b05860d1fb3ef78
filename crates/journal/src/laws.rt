//! Laws of journals: each is the contract of a function that does nothing.
ghost use Rattle.std.specs.Prelude.{◌≡◌, ◌^◌, ◌<◌, ◌++◌, ℕ, Bool, false, List, [], length, take, drop, map, All};
ghost use Rattle.journal.specs.declared.heads.Head.{Head};
ghost use Rattle.journal.specs.declared.heads.HeadFault.{HeadFault};
ghost use Rattle.journal.specs.declared.start.Refused.{Refused};
ghost use Rattle.journal.specs.declared.start.Refused.TheVariants.{NoMemory};
ghost use Rattle.journal.specs.Batch.{Messages, batch_of, IsRequest};
ghost use Rattle.journal.specs.declared.tails.Tail.TheVariants.{Torn};
ghost use Rattle.journal.specs.Frame.{body_limit, framed, frames_of, Fit, IsFrame, IsRead};
ghost use Rattle.journal.specs.Head.{head_of, IsHead, IsHeadFault, IsText};
ghost use Rattle.journal.specs.Recovered.{journal_of, updates_in, IsRecovered, IsRefused};
ghost use Rattle.journal.specs.Tail.{BeginsLater, IsTail};

/// Octets begin with at most one frame, whatever its number.
pub fn one_frame()
    ensures { (salt : List ℕ) (m n : ℕ) (octets body rest other left : List ℕ)
        → IsFrame salt m octets body rest → IsFrame salt n octets other left → (m ≡ n) × (body ≡ other) × (rest ≡ left) }
{}

/// What is written is read again, and nothing is left.
pub fn what_is_written_is_read()
    ensures { (salt : List ℕ) (number : ℕ) (bodies : List (List ℕ))
        → Fit number bodies → IsRead salt number (frames_of salt number bodies) bodies [] }
{}

/// Octets are read in one way only.
pub fn octets_are_read_once()
    ensures { (salt : List ℕ) (number : ℕ) (octets : List ℕ) (bodies : List (List ℕ)) (rest : List ℕ) (others : List (List ℕ)) (left : List ℕ)
        → IsRead salt number octets bodies rest → IsRead salt number octets others left → (bodies ≡ others) × (rest ≡ left) }
{}

/// Wherever frames are cut off, a first part of them is read.
pub fn each_cut_is_a_beginning()
    ensures { (salt : List ℕ) (number : ℕ) (bodies : List (List ℕ)) → Fit number bodies → (n : ℕ)
        → (k : ℕ) × (rest : List ℕ) × IsRead salt number (take n (frames_of salt number bodies)) (take k bodies) rest }
{}

/// What was synced to the disk is read first, whatever octets a crash leaves after it. It assumes nothing of the checksum.
pub fn what_was_synced_is_read_first()
    ensures { (salt : List ℕ) (number : ℕ) (bodies found : List (List ℕ)) (left rest : List ℕ)
        → Fit number bodies → IsRead salt number (frames_of salt number bodies ++ left) found rest
        → (more : List (List ℕ)) × (found ≡ bodies ++ more) }
{}

/// No whole frame with a later number is anywhere in a torn end: where one was written, whatever is before and after it, the tail isn't reported as torn.
pub fn no_later_frame_is_torn()
    ensures none { (salt : List ℕ) (next at : ℕ) (rest : List ℕ) → IsTail salt next rest Torn → BeginsLater salt next (drop at rest) → ⊥ }
    ensures written { (salt : List ℕ) (next number : ℕ) (front body behind : List ℕ) → next < number → number < 2 ^ 64 → length body < body_limit
        → IsTail salt next (front ++ (framed salt number body ++ behind)) Torn → ⊥ }
{}

/// Octets begin with at most one head, and octets that begin with one have no fault.
pub fn one_head()
    ensures once { (head other : Head) (rest left : List ℕ) → IsHead head → IsHead other
        → head_of head ++ rest ≡ head_of other ++ left → (head ≡ other) × (rest ≡ left) }
    ensures accepted { (head : Head) (rest : List ℕ) (fault : HeadFault) → IsHead head → IsHeadFault (head_of head ++ rest) fault → ⊥ }
{}

/// A start reads all that was written, and refuses it only for lack of memory.
pub fn what_is_written_is_recovered()
    ensures taken { (text : List ℕ) (head other : Head) (batches : List (List Messages)) (updates : List Messages) (number end : ℕ) (torn : Bool)
        → IsHead head → Fit 0 (map batch_of batches) → All (All IsRequest) batches
        → IsRecovered text (journal_of head batches) other updates number end torn
        → (other ≡ head) × (updates ≡ updates_in batches) × (torn ≡ false) }
    ensures accepted { (text : List ℕ) (head : Head) (batches : List (List Messages)) (why : Refused)
        → IsHead head → IsText head.text text → Fit 0 (map batch_of batches) → All (All IsRequest) batches
        → IsRefused text (journal_of head batches) why → why ≡ NoMemory }
{}

/// A start reads first what was synced to the disk, whatever octets a crash leaves after it. It assumes nothing of the checksum.
pub fn what_was_synced_is_recovered_first()
    ensures { (text left : List ℕ) (head other : Head) (batches : List (List Messages)) (updates : List Messages) (number end : ℕ) (torn : Bool)
        → IsHead head → Fit 0 (map batch_of batches) → All (All IsRequest) batches
        → IsRecovered text (journal_of head batches ++ left) other updates number end torn
        → (more : List Messages) × (other ≡ head) × (updates ≡ updates_in batches ++ more) }
{}
