//! Facts about an environment and a title, for all files and bytes. The functions do nothing: each contract is a law.
ghost use Rattle.env_title.specs.Laws.{LastFileDecides, FoldersFollow, NamesStayDistinct, ShowsLastBytes, BlocksJoin};
ghost use Rattle.env_title.specs.Laws.{LengthStays};

/// States that the last file of each name that does not begin with a dot decides. If the file has 0 bytes, there is no
/// variable with the name. Otherwise the variable has the value that the file gives. If there is no such file, the
/// variable is as it was.
pub fn the_last_file_decides()
    ensures { LastFileDecides }
{}

/// States that applying the files of one folder, and then those of another, is the same as applying all of them.
pub fn folders_follow_one_another()
    ensures { FoldersFollow }
{}

/// States that if no name occurs twice before, none does afterwards.
pub fn names_stay_distinct()
    ensures { NamesStayDistinct }
{}

/// States that after any pushes a title of length len shows three dots, and then the last len - 3 bytes of these: len -
/// 3 dots, followed by the pushed bytes that are not NUL.
pub fn a_title_shows_the_last_bytes()
    ensures { ShowsLastBytes }
{}

/// States that pushing one block of bytes, and then another, is the same as pushing both as one.
pub fn blocks_join()
    ensures { BlocksJoin }
{}

/// States that a title always keeps its length.
pub fn a_title_keeps_its_length()
    ensures { LengthStays }
{}
