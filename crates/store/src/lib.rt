// The layout of the lasting memory: root pages, directory, pages kept twice, plans in blocks.
#![tactic(auto)]

pub mod dir;
pub mod entry;
pub mod keep;
pub mod room;
pub mod root;
pub mod slot;

#[cfg(test)]
mod tests {
    use super::dir::{DIR_WORDS, Dir, ENTRY_WORDS, Entries, ID};
    use super::entry::entry_of;
    use super::root::turn_used;
    use super::slot::Slot;
    use std::test::Fail;

    // Words on the heap are a directory for as long as they are lent.
    #[test]
    fn keeps_a_directory_in_lent_words(rt: HostRuntime) -> Result<(), Fail> {
        let slot = Slot::new(3);
        let mut root = [0; 40];
        let mut words = vec![in rt.alloc(); 0; DIR_WORDS]?;
        let dir = <&mut Dir>::try_from(words.as_mut_slice())?;
        assert!(rt; dir.find_id(&root, 7).is_none());
        dir.put_entry(slot, &entry_of(7, 1, b"key", &[0; 18]));
        turn_used(&mut root, slot);
        assert!(rt; dir.find_id(&root, 7) == Some(slot));
        assert!(rt; dir.find_key(&root, b"key") == Some(slot));
        assert_eq!(rt; words[3 * ENTRY_WORDS + ID], 7);
        Ok(())
    }
}
